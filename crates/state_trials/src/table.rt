//! Buckets by hand, drawn beside a flat list and timed, siblings and whole tables.
mod buckets;
mod drawn;
mod flat;
mod measure;
mod rows;
mod saved;
mod saved_table;
mod siblings;
mod table;
mod vouched;
