use super::*;
use std::test::Fail;

#[test]
fn values_are_found_under_their_keys(rt: HostRuntime) -> Result<(), Fail> {
    let table = Table::new([(120, 2), (5, 0), (u32::MAX, 7)]);
    let found = match &table {
        Ok(table) => [table.find(5), table.find(u32::MAX), table.find(119)],
        Err(_) => [None; 3],
    };
    assert_eq!(rt; found, [Some(0), Some(7), None]);
    assert_eq!(rt; Table::new([]).map(|table| table.find(0)), Ok(None));
    Ok(())
}

#[test]
fn the_pair_whose_second_comes_first_is_told(rt: HostRuntime) -> Result<(), Fail> {
    let doubled = Table::new([(1, 0), (2, 0), (2, 1), (1, 1)]).map(|_| ());
    assert_eq!(rt;
        doubled,
        Err(Doubled {
            first: 1,
            second: 2
        })
    );
    let doubled = Table::new([(9, 0), (9, 1), (9, 2)]).map(|_| ());
    assert_eq!(rt;
        doubled,
        Err(Doubled {
            first: 0,
            second: 1
        })
    );
    Ok(())
}
