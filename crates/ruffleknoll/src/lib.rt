// The calls as programs in other languages link them (include/ruffleknoll.h). Each makes the call of that name and tells its answer as a
// struct of numbers; none demands anything of its caller.
#![tactic(auto)]

mod on_conditions;
mod on_rows;
mod on_tables;
