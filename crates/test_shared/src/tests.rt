mod engine;
mod shared;
mod storage;
mod told;
