mod directory;
mod io;
mod keeper;
mod lock;
mod log;
mod plan;
mod statistics;
mod tables;
