//! What is added to a block: nodes of some kind, in some region where they are allowed.

use crate::random_graphs::blocks::{Conditional, FUEL, Source};
use crate::random_graphs::graphs::{Array, Graph, Part, Shape};
use crate::random_graphs::kind::Kind;
use std::io;

const UNARY: [&str; 2] = ["neg", "not"];

const BINARY: [&str; 14] = [
    "add", "sub", "mul", "div", "rem", "and", "or", "xor", "shl", "shr", "eq", "ne", "lt", "le",
];

/// The most conditionals in a block.
const CONDITIONALS: usize = 8;

/// The greatest depth of a conditional.
const DEPTH: u64 = 4;

/// How often a block calls its own team at most.
const RECURSIONS: u64 = 2;

/// How a block invokes another one.
#[derive(Clone, Copy, PartialEq, Eq)]
enum Invocation {
    Call,
    Loop,
}

/// The teams whose blocks may be invoked.
#[derive(Clone, Copy)]
enum Teams {
    Own,
    Earlier,
}

impl Graph {
    /// Adds some nodes, where they are allowed in the region that is chosen.
    pub fn add_some(&mut self) -> io::Result<()> {
        let region = if self.dice.throw(2) == 0 {
            0
        } else {
            let regions = 2 * self.conditionals.len() as u64 + 1;
            self.dice.throw(regions)
        };
        match self.dice.throw(26) {
            0 => self.add_literal(region),
            1 => self.add_unary(region),
            2..=4 => self.add_binary(region),
            5 => self.add_fault(region),
            6..=7 => self.add_conditional(region),
            8..=11 => self.enter(),
            12..=14 => {
                let place = self.some_conditional();
                self.merge(place)
            }
            15..=17 => self.invoke(region, None, Invocation::Call),
            18..=19 => self.recur(),
            20..=21 if self.part == Part::All => self.invoke(region, None, Invocation::Loop),
            20..=21 => self.invoke(region, None, Invocation::Call),
            22..=23 => self.add_fetch(region),
            _ => self.add_store(region),
        }
    }

    fn add_literal(&mut self, region: u64) -> io::Result<()> {
        if let Some(source) = self.value(region) {
            let literal = self.integer();
            self.put(region, Kind::Lit(literal), &[source])?;
        }
        Ok(())
    }

    fn add_unary(&mut self, region: u64) -> io::Result<()> {
        if let Some(source) = self.value(region) {
            let operator = UNARY[self.dice.throw(2) as usize % 2];
            self.put(region, Kind::Unary(operator), &[source])?;
        }
        Ok(())
    }

    fn add_binary(&mut self, region: u64) -> io::Result<()> {
        if let (Some(left), Some(right)) = (self.value(region), self.value(region)) {
            let operator = BINARY[self.dice.throw(14) as usize % 14];
            self.put(region, Kind::Binary(operator), &[left, right])?;
        }
        Ok(())
    }

    /// Adds a division by zero.
    fn add_fault(&mut self, region: u64) -> io::Result<()> {
        if let Some(left) = self.value(region) {
            let zero = self.put(region, Kind::Lit(0), &[left])?;
            self.put(region, Kind::Binary("div"), &[left, zero])?;
        }
        Ok(())
    }

    /// Adds a conditional, unless there are too many already or it would lie too deep.
    fn add_conditional(&mut self, region: u64) -> io::Result<()> {
        let depth = match self.conditional_of(region) {
            None => 1,
            Some(conditional) => conditional.depth.wrapping_add(1),
        };
        if depth > DEPTH || self.conditionals.len() >= CONDITIONALS {
            return Ok(());
        }
        if let Some(predicate) = self.value(region) {
            let node = self.add(region, Kind::Cond, 0, &[predicate])?;
            self.conditionals.push(Conditional {
                node,
                region,
                depth,
            })?;
        }
        Ok(())
    }

    /// The place of some conditional; later ones are chosen more often.
    fn some_conditional(&mut self) -> u64 {
        let count = self.conditionals.len() as u64;
        if self.dice.throw(3) == 0 {
            count.wrapping_sub(1)
        } else {
            self.dice.throw(count)
        }
    }

    /// Lets some value enter one arm of some conditional, or both.
    fn enter(&mut self) -> io::Result<()> {
        let place = self.some_conditional();
        let Some(conditional) = self.conditionals.get(place as usize).copied() else {
            return Ok(());
        };
        let Some(source) = self.value(conditional.region) else {
            return Ok(());
        };
        let arm = place.wrapping_mul(2).wrapping_add(1);
        let sides = self.dice.throw(3);
        if sides != 1 {
            self.put(arm, Kind::Enter, &[source])?;
        }
        if sides != 0 {
            self.put(arm.wrapping_add(1), Kind::Enter, &[source])?;
        }
        Ok(())
    }

    /// Adds a merge of the conditional at `place`, where both arms have values.
    pub fn merge(&mut self, place: u64) -> io::Result<()> {
        let Some(conditional) = self.conditionals.get(place as usize).copied() else {
            return Ok(());
        };
        let arm = place.wrapping_mul(2).wrapping_add(1);
        if let (Some(left), Some(right)) = (self.value(arm), self.value(arm.wrapping_add(1))) {
            let kind = Kind::Merge(conditional.node);
            self.put(conditional.region, kind, &[left, right])?;
        }
        Ok(())
    }

    /// Some block of these teams that may be invoked in this way. A loop's block has the form of an iteration, and the block of a
    /// call has any form.
    fn callee(&mut self, teams: Teams, invocation: Invocation) -> Option<(u64, Shape)> {
        let team = self.shape(self.block).team;
        let mut seen = 0u64;
        let mut chosen = None;
        for (number, shape) in self.shapes.iter().enumerate() {
            let is_candidate = match teams {
                Teams::Own => shape.team == team,
                Teams::Earlier => shape.team < team,
            };
            if is_candidate && (shape.turns || invocation == Invocation::Call) {
                seen = seen.wrapping_add(1);
                if self.dice.throw(seen) == 0 {
                    chosen = Some((number as u64, *shape));
                }
            }
        }
        chosen
    }

    /// A little fuel.
    fn fresh_fuel(&mut self, region: u64, source: Source) -> io::Result<Source> {
        if self.dice.throw(2) == 0 {
            let fuel = self.dice.integer(5);
            return self.put(region, Kind::Lit(fuel), &[source]);
        }
        let most = self.put(region, Kind::Lit(3), &[source])?;
        self.put(region, Kind::Binary("and"), &[source, most])
    }

    /// Adds a call or a loop. With fuel it invokes a block of the own team, else one of an earlier team.
    fn invoke(
        &mut self,
        region: u64,
        fuel: Option<Source>,
        invocation: Invocation,
    ) -> io::Result<()> {
        let teams = match fuel {
            Some(_) => Teams::Own,
            None => Teams::Earlier,
        };
        let Some((number, shape)) = self.callee(teams, invocation) else {
            return Ok(());
        };
        let Some(value) = self.value(region) else {
            return Ok(());
        };
        let first = match fuel {
            Some(fuel) => fuel,
            None => self.fresh_fuel(region, value)?,
        };
        let arguments = self.arguments(region, first, shape.inputs)?;
        let (kind, ports) = if invocation == Invocation::Loop {
            let bounds = if self.dice.throw(4) == 0 { 63 } else { 3 };
            let bound = self.dice.throw(bounds).wrapping_add(2);
            (Kind::Loop(number, bound), shape.inputs)
        } else if self.version == 2 && self.dice.throw(3) == 0 {
            (Kind::StrictCall(number), shape.outputs)
        } else {
            (Kind::Call(number), shape.outputs)
        };
        self.add(region, kind, ports, &arguments)?;
        Ok(())
    }

    /// Calls the own team with what is left of the fuel, unless the block does so too often.
    fn recur(&mut self) -> io::Result<()> {
        match self.guarded {
            Some((arm, left)) if self.recursions < RECURSIONS => {
                self.recursions = self.recursions.wrapping_add(1);
                let is_loop = self.part == Part::All && self.dice.throw(3) == 0;
                let invocation = if is_loop {
                    Invocation::Loop
                } else {
                    Invocation::Call
                };
                self.invoke(arm, Some(left), invocation)
            }
            _ => Ok(()),
        }
    }

    /// Some array, and its number.
    fn some_array(&mut self) -> Option<(u64, Array)> {
        let number = self.dice.throw(self.arrays.len() as u64);
        let array = self.arrays.get(number as usize)?;
        Some((number, *array))
    }

    /// Some index, mostly a good one.
    fn index(&mut self, region: u64, array: Array, value: Source) -> io::Result<Source> {
        match self.dice.throw(8) {
            0 => Ok(value),
            1..=2 => {
                let mask = self.put(region, Kind::Lit(3), &[value])?;
                self.put(region, Kind::Binary("and"), &[value, mask])
            }
            3 if region == 0 => Ok(FUEL),
            4..=5 if array.filled > 0 => {
                let index = self.dice.integer(u64::from(array.filled));
                self.put(region, Kind::Lit(index), &[value])
            }
            _ => {
                let index = self.dice.integer(array.len);
                self.put(region, Kind::Lit(index), &[value])
            }
        }
    }

    fn add_fetch(&mut self, region: u64) -> io::Result<()> {
        let (Some((number, array)), Some(value)) = (self.some_array(), self.value(region)) else {
            return Ok(());
        };
        let index = self.index(region, array, value)?;
        self.put(region, Kind::Fetch(number), &[index])?;
        Ok(())
    }

    /// Adds a store. In a careful graph it is only in main, and fills the next cell.
    fn add_store(&mut self, region: u64) -> io::Result<()> {
        let (Some((number, array)), Some(value)) = (self.some_array(), self.value(region)) else {
            return Ok(());
        };
        let index = if !self.careful {
            self.index(region, array, value)?
        } else if self.is_main() && u64::from(array.filled) < array.len {
            let next = i64::from(array.filled);
            if let Some(array) = self.arrays.get_mut(number as usize) {
                array.filled = array.filled.wrapping_add(1);
            }
            self.put(region, Kind::Lit(next), &[value])?
        } else {
            return Ok(());
        };
        if let Some(stored) = self.value(region) {
            self.put(region, Kind::Store(number), &[index, stored])?;
        }
        Ok(())
    }
}
