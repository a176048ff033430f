//! Cycles of a graph, with the number of each node's cycle.

ghost use Rattle.std.specs.Prelude.{◌≡◌, ◌↔◌, ◌<◌, List, IfOk, IsTrue, length, map};
ghost use Rattle.numbered_graph.specs.CycleNumbers.{AreCyclic, AreNumbers};
ghost use Rattle.numbered_graph.specs.Cycles.{AreCycles};
ghost use Rattle.numbered_graph.specs.declared.direction.Direction.{Direction};
ghost use Rattle.numbered_graph.specs.declared.link.Link.{Link};

use std::alloc::{AllocError, Global};
use std::marker::Model;

/// Lists of nodes, and for each node of a graph the number of the first list that it is in, or how many
/// lists there are.
#[derive(Drop)]
pub struct NumberedCycles {
    cycles: Vec<Vec<usize>>,
    numbers: Vec<usize>,
}

impl Model for NumberedCycles {
    ghost use Rattle.std.specs.Prelude.{length, map};
    ghost use Rattle.numbered_graph.specs.CycleNumbers.{AreNumbers, NumberedCyclesValue};

    ghost Value = { NumberedCyclesValue };

    ghost view = { λ c. record { nodes = length c.numbers.items; cycles = map (λ x. x.items) c.cycles.items } };

    ghost invariant = { λ c. AreNumbers (length c.numbers.items) (map (λ x. x.items) c.cycles.items) 0 c.numbers.items };
}

impl NumberedCycles {
    /// The cycles, for a graph of so many nodes.
    pub fn of(
        alloc: Global,
        nodes: usize,
        cycles: Vec<Vec<usize>>,
    ) -> Result<NumberedCycles, AllocError>
        ensures { IfOk result (λ c. c
            ≡ record { nodes = nodes; cycles = map (λ x. x.items) cycles.items }) }
    {
        let mut numbers = vec![in alloc; cycles.len(); nodes]?;
        let mut number = cycles.len();
        while number > 0 {
            number -= 1;
            for node in &cycles[number] {
                if *node < numbers.len() {
                    numbers[*node] = number;
                }
            }
        }
        Ok(NumberedCycles { cycles, numbers })
    }

    /// Whether links lead from the first node to the second and back, by at least one link each way:
    /// where the lists are the cycles of a graph, the two are in one list.
    pub fn is_cyclic(&self, a: usize, b: usize) -> bool
        requires { (a < self.now.nodes) × (b < self.now.nodes) }
        ensures { (d : Direction) (links : List Link) → AreCycles d links self.now.cycles
            → IsTrue result ↔ AreCyclic links a b }
    {
        let number = self.numbers[a];
        number < self.cycles.len() && number == self.numbers[b]
    }

    /// The nodes of each cycle.
    pub fn lists(&self) -> &[Vec<usize>]
        ensures { map (λ x. x.items) result.now ≡ self.now.cycles }
    {
        &self.cycles
    }
}
