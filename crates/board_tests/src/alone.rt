//! Both boards on one thread.

use crate::score::{Score, looked, raised};
use rule_publish::{Board, PlainBoard, SwapBoard};
use std::test::Fail;

#[test]
fn a_plain_board_shows_the_value_published_last(rt: HostRuntime) -> Result<(), Fail> {
    let board = PlainBoard::new(Score { number: 3 });
    assert!(rt; board.shown_number() == 3);
    let (board, done) = board.publish(rt.alloc(), Score { number: 5 });
    assert!(rt; done.is_ok());
    assert!(rt; board.shown_number() == 5);
    Ok(())
}

#[test]
fn a_board_has_as_many_readers_as_were_asked_for(rt: HostRuntime) -> Result<(), Fail> {
    for readers in 1..9u8 {
        let (teller, mut lookers) = SwapBoard::open(&rt, rt.alloc(), Score { number: 4 }, readers)?;
        assert!(rt; lookers.len() == usize::from(readers));
        for _reader in 0..readers {
            let looker = lookers.take().expect(&rt, "a reader");
            assert!(rt; looker.seen() == 4);
        }
        assert!(rt; lookers.is_empty());
        assert!(rt; lookers.take().is_none());
        teller.close();
    }
    Ok(())
}

#[test]
fn a_look_sees_what_was_published_without_a_note(rt: HostRuntime) -> Result<(), Fail> {
    let (teller, mut lookers) = SwapBoard::open(&rt, rt.alloc(), Score { number: 0 }, 2)?;
    let looker = lookers.take().expect(&rt, "a reader");
    let (looker, number) = looked(looker);
    assert!(rt; number == 0);
    let teller = raised(teller, rt.alloc())?;
    assert!(rt; looker.seen() == 0);
    let (looker, number) = looked(looker);
    assert!(rt; number == 1);
    let teller = raised(raised(teller, rt.alloc())?, rt.alloc())?;
    assert!(rt; looked(looker).1 == 3);
    assert!(rt; teller.shown_number() == 3);
    Ok(())
}

#[test]
fn a_reader_that_learnt_sees_a_later_publish_without_a_note(rt: HostRuntime) -> Result<(), Fail> {
    let (teller, mut lookers) = SwapBoard::open(&rt, rt.alloc(), Score { number: 0 }, 1)?;
    let looker = lookers.take().expect(&rt, "a reader");
    let (teller, note) = raised(teller, rt.alloc())?.tell();
    let looker = looker.learn(note);
    assert!(rt; looker.seen() == 1);
    let teller = raised(teller, rt.alloc())?;
    assert!(rt; looked(looker).1 == 2);
    teller.close();
    Ok(())
}

#[test]
fn an_old_note_takes_nothing_back(rt: HostRuntime) -> Result<(), Fail> {
    let (teller, mut lookers) = SwapBoard::open(&rt, rt.alloc(), Score { number: 0 }, 1)?;
    let looker = lookers.take().expect(&rt, "a reader");
    let (teller, note) = teller.tell();
    let teller = raised(teller, rt.alloc())?;
    let (looker, number) = looked(looker);
    assert!(rt; number == 1);
    let looker = looker.learn(note);
    assert!(rt; looker.seen() == 1);
    let teller = raised(teller, rt.alloc())?;
    assert!(rt; looked(looker).1 == 2);
    teller.close();
    Ok(())
}

#[test]
fn a_look_that_is_held_holds_up_no_publish(rt: HostRuntime) -> Result<(), Fail> {
    let (teller, mut lookers) = SwapBoard::open(&rt, rt.alloc(), Score { number: 0 }, 1)?;
    let look = lookers.take().expect(&rt, "a reader").enter();
    let teller = raised(raised(teller, rt.alloc())?, rt.alloc())?;
    assert!(rt; look.value().number == 0);
    assert!(rt; looked(look.leave()).1 == 2);
    teller.close();
    Ok(())
}

#[test]
fn a_look_after_the_end_shows_what_was_kept(rt: HostRuntime) -> Result<(), Fail> {
    let (teller, mut lookers) = SwapBoard::open(&rt, rt.alloc(), Score { number: 0 }, 1)?;
    let looker = lookers.take().expect(&rt, "a reader");
    let teller = raised(teller, rt.alloc())?;
    let (looker, number) = looked(looker);
    assert!(rt; number == 1);
    let (teller, note) = raised(teller, rt.alloc())?.tell();
    teller.close();
    let (looker, number) = looked(looker);
    assert!(rt; number == 1);
    assert!(rt; looked(looker.learn(note)).1 == 2);
    Ok(())
}

#[test]
fn a_note_that_finds_no_place_is_shown_all_the_same(rt: HostRuntime) -> Result<(), Fail> {
    let (teller, mut lookers) = SwapBoard::open(&rt, rt.alloc(), Score { number: 0 }, 1)?;
    let looker = lookers.take().expect(&rt, "a reader");
    let (teller, _first) = raised(teller, rt.alloc())?.tell();
    let (teller, _second) = teller.tell();
    let (teller, third) = teller.tell();
    let looker = looker.learn(third);
    assert!(rt; looked(looker).1 == 1);
    teller.close();
    Ok(())
}
