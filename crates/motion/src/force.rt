// Force rows: the machine and its drive, one row, and the table.
pub(crate) mod coefficients;
pub(crate) mod doubled;
pub(crate) mod drive;
pub(crate) mod feedforward;
pub(crate) mod machine_range;
pub(crate) mod rows;
pub(crate) mod table;
