// The walk of an access, node by node.
use crate::known::Known;
use crate::layout::{Layout, position};
use crate::memory::Block;
use crate::program::Step;
use crate::site::{Spot, cell_in, no_cell, page_block, table_block};
use crate::solver::Bound;
use dt_bits::Width;
use dt_request::{Quantity, Side};

/// Where a walk goes from a node.
#[derive(Clone, Copy)]
pub enum Walked {
    On(usize),
    Ended,
    Stuck,
}

impl Layout<'_> {
    fn toss(&mut self) -> bool {
        self.draws.draw(Width(1)) == 1
    }

    // The block of the table of a read.
    fn block(&mut self, me: Side, spot: Spot) -> Option<Block> {
        if let Some(block) = spot.fixed() {
            return Some(block);
        }
        match self.shared_block(me, spot.exponent) {
            Some(block) => Some(block),
            None => table_block(self.requests, &mut self.memory, spot, &mut self.draws),
        }
    }

    // The address of a read that is made.
    fn address(&mut self, me: Side, spot: Spot) -> Option<u128> {
        if let Some(address) = self.shared_cell(me) {
            return Some(address);
        }
        let block = self.block(me, spot)?;
        cell_in(
            self.requests,
            &self.memory,
            spot,
            self.program.bytes,
            block,
            &mut self.draws,
        )
    }

    // Puts a word there, which a variable has from now on.
    fn put_word(
        &mut self,
        access: usize,
        node: u32,
        var: u32,
        place: usize,
        address: u128,
    ) -> bool {
        let word = match self.memory.word(address) {
            Some(word) => word,
            None => return false,
        };
        let slot = self.slot_of(word);
        let read = self.read_at(access, place);
        if let Some(made) = self.memory.made.get_mut(read) {
            *made = Some(word);
        }
        let choice = self
            .inputs_at(access)
            .saturating_add(self.program.inputs)
            .saturating_add(place);
        if let Some(known) = self.seen.get(choice) {
            self.solver.ask_slot(&mut self.memory.slots, slot, *known);
        }
        self.solver.bind(var, Bound::Word(slot));
        self.ask_slot(access, Quantity::Word(node), self.program.words, slot);
        true
    }

    // Makes a read.
    fn read(&mut self, me: Side, var: u32, cell: usize, granule: u32, place: usize) -> bool {
        let access = me.access as usize;
        self.ask_expression(access, Quantity::Cell(me.node), cell);
        if !self.follow() {
            return false;
        }
        let spot = Spot {
            addresses: self.program.addresses,
            known: self.known(cell),
            exponent: granule,
        };
        let address = match self.address(me, spot) {
            Some(address) => address,
            None => return false,
        };
        let want = Known::of(self.program.addresses, address);
        if !self.force(cell, want) {
            return false;
        }
        self.memory.add_table(Block::of(address, granule));
        self.put_word(access, me.node, var, place, address)
    }

    // Goes on where no word can be read.
    fn leave(&mut self, cell: usize) -> bool {
        let spot = Spot {
            addresses: self.program.addresses,
            known: self.known(cell),
            exponent: 0,
        };
        match no_cell(self.requests, spot, self.program.bytes, &mut self.draws) {
            Some(address) => {
                let want = Known::of(self.program.addresses, address);
                self.force(cell, want)
            }
            None => false,
        }
    }

    // Ends with a result.
    fn end(&mut self, access: usize, pa: usize, page: u32) -> bool {
        self.ask_expression(access, Quantity::Pa, pa);
        if !self.follow() {
            return false;
        }
        let spot = Spot {
            addresses: self.program.addresses,
            known: self.known(pa),
            exponent: page,
        };
        let block = match spot.fixed() {
            Some(block) => Some(block),
            None => match self.shared_page(access) {
                Some(block) => Some(block),
                None => page_block(self.requests, &self.memory, spot, &mut self.draws),
            },
        };
        match block {
            Some(block) => {
                if let Some(place) = self.memory.pages.get_mut(access) {
                    *place = Some(block);
                }
                self.force(pa, spot.within(block))
            }
            None => false,
        }
    }

    // Takes a side of a test.
    fn branch(&mut self, at: usize, test: usize, then_to: usize, other: usize) -> Walked {
        let way = self.routes.way(at);
        let known = self.known(test);
        let by_then = if known.covers(1) {
            known.bits == 1
        } else if way.by_then && way.by_other {
            self.toss()
        } else {
            way.by_then
        };
        let is_way = if by_then { way.by_then } else { way.by_other };
        if !is_way {
            return Walked::Stuck;
        }
        self.solver.add(test, Known::truth(by_then));
        if self.follow() {
            Walked::On(if by_then { then_to } else { other })
        } else {
            Walked::Stuck
        }
    }

    // Goes on from a node.
    pub(super) fn walk(&mut self, access: usize, at: usize) -> Walked {
        match self.program.step(at) {
            Step::Let { var, value, next } => {
                let known = self.known(value);
                self.solver.bind(var, Bound::Value { root: value, known });
                Walked::On(next)
            }
            Step::If {
                test,
                then_to,
                other,
            } => self.branch(at, test, then_to, other),
            Step::Read {
                var,
                cell,
                granule,
                place,
                then_to,
                other,
            } => {
                let me = Side {
                    access: position(access),
                    node: position(at),
                };
                let way = self.routes.way(at);
                let is_made = way.by_then && (!way.by_other || self.toss());
                if is_made {
                    if self.read(me, var, cell, granule, place) {
                        return Walked::On(then_to);
                    }
                } else if self.leave(cell) {
                    return Walked::On(other);
                }
                Walked::Stuck
            }
            Step::Fault { .. } => Walked::Ended,
            Step::Done { pa, page } => if self.end(access, pa, page) {
                Walked::Ended
            } else {
                Walked::Stuck
            },
        }
    }
}
