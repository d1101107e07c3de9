// What the programs that try calls share: printing, preference lists and logs by hand and from a seed, levels written
// apart, and a nested loop to hold calls against. Proved safe and ending, no more.
#![tactic(auto)]

pub mod counts;
pub mod figures;
pub mod lent;
pub mod levels_apart;
pub mod lists;
pub mod logs;
pub mod nested;
pub mod rental;
pub mod room;
pub mod short_logs;
pub mod show;
pub mod trial;
pub mod tried;
