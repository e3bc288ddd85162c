use rings::subtract_cycles;

/// A row of names is symbol, mark, usage, assign, entry and counted; a row of edges is two rows of names, usage and assign.
#[test]
fn a_count_wraps(rt: HostRuntime) {
    let mut names: [u32; 18] = [1, 1, 1, 0, 0, 1, 2, 1, 1, 0, 0, 1, 3, 1, 1, 0, 0, 1];
    let edges: [u32; 16] = [1, 2, 1, 0, 3, 2, 1, 0, 1, 3, 1, 0, 2, 1, 1, 0];
    let mut work: [u32; 19] = [0; 19];
    assert_eq!(rt;
        subtract_cycles(&mut names, &edges, &mut work).is_ok(),
        true
    );
    assert_eq!(rt; names[2], 0);
    assert_eq!(rt; names[8], 4294967295);
    assert_eq!(rt; names[14], 0);
}

#[test]
fn a_name_that_refers_to_itself_keeps_its_counts(rt: HostRuntime) {
    let mut names: [u32; 6] = [1, 1, 3, 2, 0, 1];
    let edges: [u32; 4] = [1, 1, 3, 2];
    let mut work: [u32; 6] = [0; 6];
    assert_eq!(rt;
        subtract_cycles(&mut names, &edges, &mut work).is_ok(),
        true
    );
    assert_eq!(rt; names[2], 3);
    assert_eq!(rt; names[3], 2);
}

/// The first ring is closed, and an edge leads from it into the second.
#[test]
fn of_two_rings_joined_one_way_one_is_closed(rt: HostRuntime) {
    let mut names: [u32; 24] = [
        1, 1, 5, 4, 0, 1, 2, 1, 5, 4, 0, 1, 3, 1, 5, 4, 0, 1, 4, 1, 5, 4, 0, 1,
    ];
    let edges: [u32; 20] = [1, 2, 2, 1, 2, 1, 1, 2, 2, 3, 1, 0, 3, 4, 1, 1, 4, 3, 1, 1];
    let mut work: [u32; 25] = [0; 25];
    assert_eq!(rt;
        subtract_cycles(&mut names, &edges, &mut work).is_ok(),
        true
    );
    assert_eq!(rt; names[2], 4);
    assert_eq!(rt; names[3], 2);
    assert_eq!(rt; names[8], 3);
    assert_eq!(rt; names[9], 3);
    assert_eq!(rt; names[14], 5);
    assert_eq!(rt; names[20], 5);
}

/// An entry keeps its whole ring.
#[test]
fn a_ring_with_an_entry_keeps_its_counts(rt: HostRuntime) {
    let mut names: [u32; 12] = [1, 1, 2, 0, 1, 1, 2, 1, 1, 0, 0, 1];
    let edges: [u32; 8] = [1, 2, 1, 0, 2, 1, 1, 0];
    let mut work: [u32; 12] = [0; 12];
    assert_eq!(rt;
        subtract_cycles(&mut names, &edges, &mut work).is_ok(),
        true
    );
    assert_eq!(rt; names[2], 2);
    assert_eq!(rt; names[8], 1);
}

#[test]
fn nothing_is_there(rt: HostRuntime) {
    let mut names: [u32; 0] = [];
    let edges: [u32; 0] = [];
    let mut work: [u32; 0] = [];
    assert_eq!(rt;
        subtract_cycles(&mut names, &edges, &mut work).is_ok(),
        true
    );
}

#[test]
fn too_little_work_memory_leaves_the_names(rt: HostRuntime) {
    let mut names: [u32; 12] = [1, 1, 1, 0, 0, 1, 2, 1, 1, 0, 0, 1];
    let edges: [u32; 8] = [1, 2, 1, 0, 2, 1, 1, 0];
    let mut work: [u32; 9] = [0; 9];
    assert_eq!(rt;
        subtract_cycles(&mut names, &edges, &mut work).is_err(),
        true
    );
    assert_eq!(rt; names[2], 1);
    assert_eq!(rt; names[8], 1);
}
