use dt_bits::{NoMemory, Seq};

#[test]
fn a_list_grows_where_there_is_memory(rt: HostRuntime) -> Result<(), NoMemory> {
    let mut list = Seq::new(rt.alloc());
    list.push(3)?;
    assert_eq!(rt; list.as_slice(), [3].as_slice());
    Ok(())
}
