// Trees that were made by hand, and the texts that they are printed as.

mod forms;
mod made;
mod members;
mod units;
