mod recover;
pub(crate) mod restart;
