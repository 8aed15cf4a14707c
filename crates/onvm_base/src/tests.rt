//! What no clause says.
use crate::{ListOf, Packet};
use std::test::Fail;

#[test]
fn a_packet_grows_and_shrinks_in_its_middle(rt: HostRuntime) -> Result<(), Fail> {
    let mut packet = Packet::from_slice(rt.alloc(), &[1, 2, 3, 4])?;
    packet.replace(1, 3, &[7, 8, 9])?;
    assert_eq!(rt; packet.bytes(), [1, 7, 8, 9, 4].as_slice());
    packet.overwrite(0, &[5, 6]);
    packet.set(4, 3);
    packet.replace(2, 4, &[8])?;
    assert_eq!(rt; packet.bytes(), [5, 6, 8, 3].as_slice());
    packet.remove(1, 3);
    assert_eq!(rt; packet.bytes(), [5, 3].as_slice());
    Ok(())
}

#[test]
fn a_list_is_changed_in_place_and_sorted(rt: HostRuntime) -> Result<(), Fail> {
    let mut list = ListOf::from_slice(rt.alloc(), &[(2u8, 4u8), (1, 5), (2, 3)])?;
    list.push((0, 9))?;
    list.as_mut_slice()[3] = (1, 1);
    list.sort_by_key(|item| item.0)?;
    assert_eq!(rt;
        list.as_slice(),
        [(1, 5), (1, 1), (2, 4), (2, 3)].as_slice()
    );
    assert_eq!(rt; list.pop(), Some((2, 3)));
    assert_eq!(rt; list.get(1), Some(&(1, 1)));
    assert_eq!(rt; list.get(3), None);
    let items = list.into_vec();
    assert_eq!(rt; items.as_slice(), [(1, 5), (1, 1), (2, 4)].as_slice());
    Ok(())
}
