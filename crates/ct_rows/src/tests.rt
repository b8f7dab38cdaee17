//! Sessions over the book of coins of 3 and 5 at cost 2 and 3.
ghost use Rattle.std.specs.Prelude.{◌≡◌, ◌≤◌};

use crate::book_desk::BookDesk;
use ct_book::Book;
use ct_instance::Instance;
use ct_session::Session;
use std::alloc::Global;
use std::process::Abort;
use std::sync::Arc;

// A session that has version 0 pinned, over a book that is completed up to this grade.
fn opened<'a, R: Abort>(
    rt: &'a R,
    alloc: Global,
    completed: u64,
    is_busy: bool,
    has_memory: bool,
) -> Session<BookDesk<'a, R>>
    requires grade { completed ≤ 100 }
    ensures { result.desk.book.instance.rows ≡ 1 }
{
    let inst = Instance::new(alloc, 1, 2, &[3, 5], &[2, 3]).expect(rt, "an instance");
    let inst = Arc::new(alloc, inst).expect(rt, "room");
    let shared = inst.clone().expect(rt, "room");
    let mut book = Book::open(alloc, shared, 4096, 1).expect(rt, "room");
    let first = book.version().clone().expect(rt, "room");
    if book.complete(alloc, 0, completed).is_err() {
        panic!(rt; "no version covers the grade");
    }
    let words = Vec::new(alloc);
    let desk = BookDesk {
        rt,
        book,
        words,
        is_busy,
        has_memory,
        refused: 0,
    };
    Session::open(alloc, inst, desk, first).expect(rt, "room")
}

#[test]
fn a_solve_pins_the_first_version_that_covers(rt: HostRuntime) {
    let alloc = rt.alloc();
    let mut session = opened(&rt, alloc, 0, false, true);
    assert!(rt; session.solve(&rt, alloc, &[8]).is_ok());
    assert!(rt; session.pinned() == 4);
}

// The words are twice the number of the book's version, 12, and one more where another has the turn.
#[test]
fn an_ask_takes_a_newer_version_where_it_can(rt: HostRuntime) {
    let alloc = rt.alloc();
    for (is_busy, has_memory, pinned, word, refused) in [
        (false, true, 12, 24, 0),
        (false, false, 0, 24, 1),
        (true, true, 0, 25, 0),
    ] {
        let mut session = opened(&rt, alloc, 21, is_busy, has_memory);
        assert!(rt; session.ask(&[100]).is_ok() == (pinned == 12));
        assert!(rt; session.pinned() == pinned);
        let (desk, version) = session.close();
        assert!(rt; desk.words.as_slice() == [word].as_slice());
        assert!(rt; desk.refused == refused && version.number() == pinned);
    }
}
