mod cleans;
mod moves;
mod premises;
mod reopened;
pub(crate) mod running;
mod stopped;
