mod by_module;
mod by_root;
mod own;
mod readme;
