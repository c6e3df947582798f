mod counted;
mod faults;
mod given;
mod runs;
