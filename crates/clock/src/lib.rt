// What moves with the cycles whatever the traffic is: the draw register and the golden ticket.
#![tactic(auto)]

pub mod draw;
pub mod epoch;
