use dt_bits::NoMemory;
use dt_edge::{MemoryShelf, MemorySink, Shelf, ShelfFault, Sink, SinkFault};

fn is_read(read: Result<Vec<u8>, ShelfFault>, want: &[u8]) -> bool {
    match read {
        Ok(bytes) => bytes.as_slice() == want,
        Err(_) => false,
    }
}

#[test]
fn files_that_were_put_are_read(rt: HostRuntime) -> Result<(), NoMemory> {
    let alloc = rt.alloc();
    let mut shelf = MemoryShelf::new(alloc, &[1])?;
    shelf.put("model", b"first")?;
    assert!(rt; is_read(shelf.read_all(alloc, "model", 5), b"first"));
    assert_eq!(rt;
        shelf.read_all(alloc, "model", 5).err(),
        Some(ShelfFault::Failed)
    );
    Ok(())
}

#[test]
fn writes_within_the_room_are_kept(rt: HostRuntime) -> Result<(), NoMemory> {
    let mut sink = MemorySink::new(rt.alloc(), 3, &[])?;
    assert_eq!(rt; sink.write_all(b"abc"), Ok(()));
    assert_eq!(rt; sink.write_all(b"d"), Err(SinkFault));
    assert_eq!(rt; sink.written(), b"abc".as_slice());
    Ok(())
}
