// The program over an output that tells its pieces.
use dt_bits::NoMemory;
use dt_edge::{MemoryShelf, Sink, SinkFault};
use dt_top::{Status, run};

// An output that keeps each piece, and fails where memory runs out for one.
#[derive(Drop)]
struct PieceSink {
    pieces: Vec<Vec<u8>>,
    faults: u64,
}

impl Sink for PieceSink {
    ghost use Rattle.std.specs.Prelude.{None, Some, map};

    ghost written = { λ _. None };

    ghost faults = { λ sink. sink.faults };

    ghost pieces = { λ sink. Some (map (λ piece. piece.items) sink.pieces.items) };

    ghost takes = { λ _ _. ⊥ };

    fn write_all(&mut self, bytes: &[u8]) -> Result<(), SinkFault> {
        let alloc = *self.pieces.allocator();
        if let Ok(piece) = Vec::from_slice(alloc, bytes) {
            if self.pieces.push(piece).is_ok() {
                return Ok(());
            }
        }
        self.faults = self.faults.saturating_add(1);
        Err(SinkFault)
    }
}

#[test]
fn a_line_is_one_piece(rt: HostRuntime) -> Result<(), NoMemory> {
    let alloc = rt.alloc();
    let mut shelf = MemoryShelf::new(alloc, &[])?;
    let mut sink = PieceSink {
        pieces: Vec::new(alloc),
        faults: 0,
    };
    assert_eq!(rt; run(alloc, &[], &mut shelf, &mut sink), Status::Words);
    assert_eq!(rt; sink.pieces.len(), 1);
    Ok(())
}
