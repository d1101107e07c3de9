// Reading of one record (document 01, "Runs and records" and "When a number comes back"): its figures, the
// number that it is refused by, and what it adds to the list, the rows and the log. Inside the reader, and no
// call open to others: `stream_reader` meets what its calls require.
#![tactic(auto)]

pub mod checks;
pub mod figures;
pub mod reading;
pub mod values;
