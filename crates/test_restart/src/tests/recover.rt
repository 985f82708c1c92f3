mod many;
mod opened;
mod random;
mod recovering;
mod rows;
mod slow;
