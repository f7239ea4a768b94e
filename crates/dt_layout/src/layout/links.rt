// What the links of a list share with reads and pages that lie already.
use crate::layout::Layout;
use crate::memory::Block;
use dt_request::{Link, Side};

impl Layout<'_> {
    // The address of the read at the other end of a link, where this is one end and that was made.
    fn other_end(&self, me: Side, a: Side, b: Side) -> Option<u128> {
        let other = if a == me {
            b
        } else if b == me {
            a
        } else {
            return None;
        };
        let place = self.program.place(other.node);
        self.memory
            .cell_made(self.read_at(other.access as usize, place))
    }

    // The address that a read shares by a link.
    pub(super) fn shared_cell(&self, me: Side) -> Option<u128> {
        let mut found = None;
        for link in self.requests.links.iter() {
            if let Link::ShareCell(a, b) = link {
                found = found.or(self.other_end(me, *a, *b));
            }
        }
        found
    }

    // The block that a read's table shares by a link.
    pub(super) fn shared_block(&self, me: Side, exponent: u32) -> Option<Block> {
        let mut found = None;
        for link in self.requests.links.iter() {
            if let Link::ShareTable(a, b) = link {
                found = found.or(self.other_end(me, *a, *b));
            }
        }
        match found {
            Some(address) => Some(Block::of(address, exponent)),
            None => None,
        }
    }

    // The page that an access shares by a link.
    pub(super) fn shared_page(&self, access: usize) -> Option<Block> {
        let mut found = None;
        for link in self.requests.links.iter() {
            if let Link::SharePage(a, b) = link {
                let (a, b) = (*a as usize, *b as usize);
                let other = if a == access { b } else { a };
                if a == access || b == access {
                    if let Some(Some(page)) = self.memory.pages.get(other) {
                        found = Some(*page);
                    }
                }
            }
        }
        found
    }
}
