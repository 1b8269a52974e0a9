//! A search, before its first step and after its last one. `checks/cover` compares whole searches with a second one.
use crate::tests::wanted::{holds, same};
use ring_machine::Completion;
use schedules::covering::{Scope, Search, SearchedQueue, is_data};
use std::alloc::Global;
use std::process::Abort;

/// What an enabled transmit queue with a head word can do with silicon and its driver.
const SCOPE: Scope = Scope {
    side: SearchedQueue::Transmit(Completion::Head),
    device_only: true,
};

// A search without a step has met nothing, and has no list.
#[test]
fn a_new_search_has_no_list(rt: HostRuntime) {
    let search = Search::new(rt.alloc(), SCOPE).expect(&rt, "a search");
    holds(&rt, !search.is_whole());
    let counts = (search.states(), search.expanded(), search.pairs());
    same(&rt, counts, (1, 0, 0));
    let lists = search.lists(rt.alloc()).expect(&rt, "lists");
    same(&rt, lists.len(), 0);
}

// The pair of each list was met, and each move is one of silicon's.
fn has_met_pairs<A: Abort>(rt: &A, alloc: Global, search: &Search) {
    let lists = search.lists(alloc).expect(rt, "lists");
    same(rt, lists.len(), 9);
    for list in &lists {
        holds(rt, search.has_met(&list.pair));
        for action in list.moves.as_slice() {
            holds(rt, is_data(*action));
        }
    }
}

#[test]
fn a_whole_search_has_met_the_pairs_of_its_lists(rt: HostRuntime) {
    let alloc = rt.alloc();
    let mut search = Search::new(alloc, SCOPE).expect(&rt, "a search");
    for _ in 0..4 {
        search.expand(alloc, 1000).expect(&rt, "a search's room");
    }
    holds(&rt, search.is_whole());
    let counts = (search.states(), search.expanded(), search.pairs());
    same(&rt, counts, (3445, 3445, 16));
    has_met_pairs(&rt, alloc, &search);
}
