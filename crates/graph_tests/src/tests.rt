use graph::{Edges, GraphFault, Pairs, Rows, components, words};

/// Nodes of the long graphs.
const MANY: usize = 400;

/// Labels the nodes of a graph of a few edges.
fn label(edges: &[(u32, u32)], labels: &mut [u32]) -> Result<u32, GraphFault> {
    let mut work = [7; 64];
    components(&Pairs::of(edges), &mut work, labels)
}

#[test]
fn nothing_has_no_component(rt: HostRuntime) {
    assert_eq!(rt; label(&[], &mut []), Ok(0));
}

#[test]
fn nodes_without_edges_stand_alone(rt: HostRuntime) {
    let mut labels = [9; 4];
    assert_eq!(rt; label(&[], &mut labels), Ok(4));
    assert_eq!(rt; labels, [0, 1, 2, 3]);
}

#[test]
fn loops_and_doubled_edges_join_nothing(rt: HostRuntime) {
    let mut labels = [9; 3];
    assert_eq!(rt;
        label(
            &[(0, 0), (0, 1), (0, 1), (1, 1), (1, 2), (1, 2), (2, 2)],
            &mut labels
        ),
        Ok(3)
    );
    assert_eq!(rt; labels, [2, 1, 0]);
}

#[test]
fn a_pair_of_edges_joins(rt: HostRuntime) {
    let mut labels = [9; 3];
    assert_eq!(rt; label(&[(0, 2), (2, 0), (0, 2)], &mut labels), Ok(2));
    assert_eq!(rt; labels, [0, 1, 0]);
}

#[test]
fn rings_joined_one_way_stay_apart(rt: HostRuntime) {
    let rings = [(0, 1), (1, 2), (2, 0), (3, 4), (4, 3), (2, 3)];
    let mut labels = [9; 5];
    assert_eq!(rt; label(&rings, &mut labels), Ok(2));
    assert_eq!(rt; labels, [1, 1, 1, 0, 0]);
}

#[test]
fn rings_joined_both_ways_are_one(rt: HostRuntime) {
    let rings = [(0, 1), (1, 2), (2, 0), (3, 4), (4, 3), (2, 3), (4, 1)];
    let mut labels = [9; 5];
    assert_eq!(rt; label(&rings, &mut labels), Ok(1));
    assert_eq!(rt; labels, [0, 0, 0, 0, 0]);
}

#[test]
fn rings_within_rings(rt: HostRuntime) {
    // A ring of 0, 1, 2 and 3 with a ring of 1 and 4 on it, a tail 5, and a ring of 6 and 7 that leads in.
    let edges = [
        (0, 1),
        (1, 4),
        (4, 1),
        (1, 2),
        (2, 3),
        (3, 0),
        (3, 5),
        (6, 7),
        (7, 6),
        (7, 4),
    ];
    let mut labels = [9; 8];
    assert_eq!(rt; label(&edges, &mut labels), Ok(3));
    assert_eq!(rt; labels, [1, 1, 1, 1, 1, 0, 2, 2]);
}

#[test]
fn a_star_joins_where_it_leads_back(rt: HostRuntime) {
    let mut labels = [9; 5];
    assert_eq!(rt;
        label(
            &[(0, 1), (0, 2), (0, 3), (0, 4), (2, 0), (4, 0)],
            &mut labels
        ),
        Ok(3)
    );
    assert_eq!(rt; labels[0], labels[2]);
    assert_eq!(rt; labels[0], labels[4]);
    assert!(rt; labels[1] != labels[0] && labels[3] != labels[0] && labels[1] != labels[3]);
}

#[test]
fn a_path_falls_apart(rt: HostRuntime) {
    let mut path = [(0, 0); MANY];
    for (k, edge) in path.iter_mut().enumerate() {
        *edge = (k as u32, k as u32 + 1);
    }
    let mut labels = [0; MANY + 1];
    let mut work = [0; 5 * MANY + 4];
    assert_eq!(rt;
        components(&Pairs::of(&path), &mut work, &mut labels),
        Ok(401)
    );
    for (v, label) in labels.iter().enumerate() {
        assert!(rt; *label as usize == MANY - v);
    }
}

#[test]
fn a_ring_is_one_component(rt: HostRuntime) {
    let mut ring = [(0, 0); MANY];
    for (k, edge) in ring.iter_mut().enumerate() {
        *edge = (k as u32, (k as u32 + 1) % 400);
    }
    let mut labels = [9; MANY];
    let mut work = [0; 5 * MANY];
    assert_eq!(rt;
        components(&Pairs::of(&ring), &mut work, &mut labels),
        Ok(1)
    );
    for label in labels.iter() {
        assert_eq!(rt; *label, 0);
    }
}

#[test]
fn rows_of_four_words_are_edges(rt: HostRuntime) {
    // Nodes 1 and 2 refer to each other, and node 3 to the first; the last words are no whole row.
    let rows = [1, 2, 5, 0, 2, 1, 1, 1, 3, 1, 9, 9, 1, 3];
    let mut labels = [9; 4];
    let mut work = [0; 19];
    assert_eq!(rt; Rows::of(&rows).len(), 3);
    assert_eq!(rt; components(&Rows::of(&rows), &mut work, &mut labels), Ok(3));
    assert_eq!(rt; labels, [0, 1, 1, 2]);
}

#[test]
fn an_edge_past_the_nodes_is_refused(rt: HostRuntime) {
    let mut labels = [9; 2];
    assert_eq!(rt;
        label(&[(0, 1), (1, 2), (2, 0)], &mut labels),
        Err(GraphFault::NoSuchNode(1))
    );
    assert_eq!(rt;
        label(&[(0, 1), (1, 0), (2, 0)], &mut labels),
        Err(GraphFault::NoSuchNode(2))
    );
    assert_eq!(rt; labels, [9, 9]);
}

#[test]
fn too_little_room_is_refused(rt: HostRuntime) {
    let edges = [(0, 1), (1, 0)];
    let mut labels = [9; 3];
    let mut work = [0; 13];
    assert_eq!(rt; words(3, 2), 14);
    assert_eq!(rt;
        components(&Pairs::of(&edges), &mut work, &mut labels),
        Err(GraphFault::NoRoom)
    );
    assert_eq!(rt; labels, [9, 9, 9]);
    let mut enough = [0; 14];
    assert_eq!(rt;
        components(&Pairs::of(&edges), &mut enough, &mut labels),
        Ok(2)
    );
}
