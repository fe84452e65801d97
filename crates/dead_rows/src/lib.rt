// Dead rows (document 02, E8): rows that no listed row reaches, so that nobody is told what they judge.

#![tactic(auto)]

pub mod dead;
mod marks;
