mod manager;
mod pickers;
mod scans;
