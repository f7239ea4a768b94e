ghost use Rattle.std.specs.Prelude.{◌≡◌, length, take, IfOk};
ghost use Rattle.dt_log.specs.declared.line.Line.TheVariants.{Try};
ghost use Rattle.dt_log.specs.Packing.{unpacked, IsPacked};

use crate::line::Line;
use dt_bits::NoMemory;
use std::alloc::Global;
use std::marker::Model;

// An item as it is kept, in 12 bytes: of a Try, the position of its value among the values.
#[derive(Clone, Copy, Debug)]
enum Packed {
    Forward { term: u32 },
    Backward { parent: u32, place: u32 },
    Try { choice: u32, position: u32 },
    Split { term: u32, bit: u32 },
    Close { term: u32 },
    Loose,
    Unvisited,
}

/// The items of a log in their order, which contracts see as the list of them. An item takes 12
/// bytes, and the value of a Try 16 more. It holds at most 2^32 Try items.
#[derive(Debug, Drop)]
pub struct Lines {
    items: Vec<Packed>,
    values: Vec<u128>,
}

impl Model for Lines {
    ghost use Rattle.std.specs.Prelude.{List, map, length};
    ghost use Rattle.std.specs.List.{AllByRecursion};
    ghost use Rattle.dt_log.specs.declared.line.Line.{Line};
    ghost use Rattle.dt_log.specs.Packing.{unpacked, IsPacked};

    ghost Value = { List Line };

    ghost view = { λ it. map (unpacked it.values.items) it.items.items };

    ghost invariant = { λ it. AllByRecursion (IsPacked (length it.values.items)) it.items.items };
}

fn pack_try(values: &mut Vec<u128>, choice: u32, value: u128) -> Result<Packed, NoMemory>
    ensures packed { IfOk result (λ packed. IsPacked (length values.new.items) packed × (unpacked values.new.items packed ≡ Try choice value)) }
    ensures kept { take (length values.old.items) values.new.items ≡ values.old.items }
{
    let position = values.len();
    if position > u32::MAX as usize {
        return Err(NoMemory);
    }
    values.push(value)?;
    Ok(Packed::Try {
        choice,
        position: position as u32,
    })
}

// The item as it is kept; the value of a Try is appended to the values.
fn pack(values: &mut Vec<u128>, line: Line) -> Result<Packed, NoMemory>
    ensures packed { IfOk result (λ packed. IsPacked (length values.new.items) packed × (unpacked values.new.items packed ≡ line)) }
    ensures kept { take (length values.old.items) values.new.items ≡ values.old.items }
{
    match line {
        Line::Forward { term } => Ok(Packed::Forward { term }),
        Line::Backward { parent, place } => Ok(Packed::Backward { parent, place }),
        Line::Try { choice, value } => pack_try(values, choice, value),
        Line::Split { term, bit } => Ok(Packed::Split { term, bit }),
        Line::Close { term } => Ok(Packed::Close { term }),
        Line::Loose => Ok(Packed::Loose),
        Line::Unvisited => Ok(Packed::Unvisited),
    }
}

impl Lines {
    ghost use Rattle.std.specs.Prelude.{◌≡◌, ◌==◌, ◌<◌, ◌^◌, ◌++◌, ◌∷◌, [], List, length, slice_index_or, OnOk, OnErr};
    ghost use Rattle.dt_log.specs.declared.line.Line.{Line};

    /// No items. It takes no memory.
    pub fn new(alloc: Global) -> Lines
        ensures { result ≡ [] }
    {
        Lines {
            items: Vec::new(alloc),
            values: Vec::new(alloc),
        }
    }

    /// How many items there are.
    pub fn len(&self) -> usize
        ensures count { result ≡ length self.now }
        ensures few { result < 2 ^ 62 }
    {
        self.items.as_slice().len()
    }

    /// Whether there is no item.
    pub fn is_empty(&self) -> bool
        ensures { result ≡ (length self.now == 0) }
    {
        self.items.is_empty()
    }

    /// The item at a position, counted from 0.
    pub fn at(&self, index: usize) -> Line
        requires { index < length self.now }
        ensures { result ≡ slice_index_or self.now index result }
    {
        match self.items[index] {
            Packed::Forward { term } => Line::Forward { term },
            Packed::Backward { parent, place } => Line::Backward { parent, place },
            Packed::Try { choice, position } => Line::Try {
                choice,
                value: self.values[position as usize],
            },
            Packed::Split { term, bit } => Line::Split { term, bit },
            Packed::Close { term } => Line::Close { term },
            Packed::Loose => Line::Loose,
            Packed::Unvisited => Line::Unvisited,
        }
    }

    /// Appends an item; without memory for it, the items stay as they were.
    pub fn push(&mut self, line: Line) -> Result<(), NoMemory>
        ensures ok { OnOk result (self.new ≡ self.old ++ line ∷ []) }
        ensures err { OnErr result (self.new ≡ self.old) }
    {
        let packed = pack(&mut self.values, line)?;
        self.items.push(packed)?;
        Ok(())
    }

    /// Takes the last item away, where there is one.
    pub fn pop(&mut self)
        ensures some { (lines : List Line) → (line : Line) → self.old ≡ lines ++ line ∷ [] → self.new ≡ lines }
        ensures none { self.old ≡ [] → self.new ≡ [] }
    {
        self.items.pop();
    }
}
