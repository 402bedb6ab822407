//! One answer to one question: a presentation, a prime and a class have one canonical largest quotient. Whatever finds it, a tower over
//! full covers, one over light covers or a certificate, prints the same.
#![tactic(auto)]

pub mod laws;
