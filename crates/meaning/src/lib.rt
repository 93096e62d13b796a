// What a network means to the theory of circles: every kind of network and grade gives a lawful graph and a strict order.
#![tactic(auto)]

ghost use Rattle.meaning.specs.Persons.{graph_of, order_of};
ghost use Rattle.theory.specs.Graphs.{Lawful};
ghost use Rattle.theory.specs.Orders.{StrictOrder};

use networks::Network;

// Nothing that is proved of lawful graphs and strict orders is about nothing.
pub fn networks_are_lawful<N: Network>(net: &N)
    ensures graph { Lawful (graph_of (N.meaning net.now)) }
    ensures order { StrictOrder (order_of N.Grade.at_most (N.meaning net.now)) }
{}
