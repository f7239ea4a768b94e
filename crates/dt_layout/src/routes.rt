// By which nodes and sides the walk of an access may go, so that it comes to what is demanded.
use crate::program::{Program, Step};
use dt_bits::NoMemory;
use dt_request::{Demand, Link, Quantity, Requests, Side};
use std::alloc::Global;

/// Where a walk may go at a node.
#[derive(Clone, Copy)]
pub struct Way {
    // It must be visited, or must not.
    needed: bool,
    avoided: bool,
    // A side is forbidden.
    no_then: bool,
    no_other: bool,
    // The demanded ends are reached from here.
    open: bool,
    /// It may be left by `then`, or by its other side.
    pub by_then: bool,
    pub by_other: bool,
}

const FREE: Way = Way {
    needed: false,
    avoided: false,
    no_then: false,
    no_other: false,
    open: false,
    by_then: false,
    by_other: false,
};

/// How a walk may end.
#[derive(Clone, Copy)]
struct Ends {
    result: bool,
    fault: bool,
    code: Option<u32>,
    page: Option<u32>,
}

/// Where the walk of an access may go.
#[derive(Drop)]
pub struct Routes {
    ways: Vec<Way>,
    ends: Ends,
}

impl Routes {
    pub fn new(alloc: Global, program: &Program) -> Result<Routes, NoMemory> {
        Ok(Routes {
            ways: vec![in alloc; FREE; program.steps.len()]?,
            ends: Ends {
                result: true,
                fault: true,
                code: None,
                page: None,
            },
        })
    }

    /// Where the walk may go at a node.
    pub fn way(&self, node: usize) -> Way {
        match self.ways.get(node) {
            Some(way) => *way,
            None => FREE,
        }
    }

    fn need(&mut self, node: u32) {
        if let Some(way) = self.ways.get_mut(node as usize) {
            way.needed = true;
        }
    }

    fn avoid(&mut self, node: u32) {
        if let Some(way) = self.ways.get_mut(node as usize) {
            way.avoided = true;
        }
    }

    fn take(&mut self, node: u32, by_then: bool) {
        if let Some(way) = self.ways.get_mut(node as usize) {
            way.needed = true;
            if by_then {
                way.no_other = true;
            } else {
                way.no_then = true;
            }
        }
    }

    fn want_quantity(&mut self, of: Quantity) {
        match of {
            Quantity::Word(node) | Quantity::Cell(node) => self.take(node, true),
            Quantity::Pa => self.ends.fault = false,
            _ => {}
        }
    }

    fn want_demand(&mut self, demand: &Demand) {
        match demand {
            Demand::Via(node) => self.need(*node),
            Demand::Avoid(node) => self.avoid(*node),
            Demand::Take { node, by_then } => self.take(*node, *by_then),
            Demand::EndDone => self.ends.fault = false,
            Demand::EndFault(code) => {
                self.ends.result = false;
                self.ends.code = Some(*code);
            }
            Demand::Page(page) => {
                self.ends.fault = false;
                self.ends.page = Some(*page);
            }
            Demand::Bits { of, .. } => self.want_quantity(*of),
            Demand::Span { of, .. } => self.want_quantity(*of),
        }
    }

    fn want_side(&mut self, access: usize, side: &Side) {
        if side.access as usize == access {
            self.take(side.node, true);
        }
    }

    fn want_link(&mut self, access: usize, link: &Link) {
        match link {
            Link::ShareTable(a, b) | Link::ShareCell(a, b) | Link::ApartTable(a, b) => {
                self.want_side(access, a);
                self.want_side(access, b);
            }
            Link::SharePage(a, b) | Link::ApartPage(a, b) => {
                if *a as usize == access || *b as usize == access {
                    self.ends.fault = false;
                }
            }
        }
    }

    fn clear(&mut self) {
        for way in self.ways.iter_mut() {
            *way = FREE;
        }
        self.ends = Ends {
            result: true,
            fault: true,
            code: None,
            page: None,
        };
    }

    fn may_end(&self, step: Step) -> bool {
        match step {
            Step::Fault { code } => self.ends.fault
                && match self.ends.code {
                    Some(asked) => asked == code,
                    None => true,
                },
            Step::Done { page, .. } => self.ends.result
                && match self.ends.page {
                    Some(asked) => asked == page,
                    None => true,
                },
            _ => false,
        }
    }

    // Whether a walk may go from a node to a later one, where `needed` is the first node after it
    // that must be visited.
    fn leads(&self, at: usize, to: usize, needed: usize) -> bool {
        at < to && to <= needed && self.way(to).open
    }

    // The sides by which a node may be left.
    fn sides(&self, at: usize, step: Step, needed: usize) -> (bool, bool) {
        let way = self.way(at);
        match step {
            Step::Let { next, .. } => (self.leads(at, next, needed), false),
            Step::If { then_to, other, .. } | Step::Read { then_to, other, .. } => (
                !way.no_then && self.leads(at, then_to, needed),
                !way.no_other && self.leads(at, other, needed),
            ),
            _ => (needed == usize::MAX && self.may_end(step), false),
        }
    }

    // Goes from the last node to the first.
    fn reach(&mut self, program: &Program) {
        let mut needed = usize::MAX;
        for at in (0..program.steps.len()).rev() {
            let (by_then, by_other) = self.sides(at, program.step(at), needed);
            if let Some(way) = self.ways.get_mut(at) {
                way.by_then = by_then;
                way.by_other = by_other;
                way.open = !way.avoided && (by_then || by_other);
                if way.needed {
                    needed = at;
                }
            }
        }
    }

    /// The routes of an access. False where there is none.
    pub fn plan(&mut self, program: &Program, requests: &Requests, access: usize) -> bool {
        self.clear();
        if let Some(wish) = requests.accesses.get(access) {
            for demand in wish.demands.iter() {
                self.want_demand(demand);
            }
        }
        for link in requests.links.iter() {
            self.want_link(access, link);
        }
        self.reach(program);
        self.way(0).open
    }
}
