//! A bell ends the sleep that was announced at it: no time limit helps, as each is longer than a test may take.

use cpg_link::{Bell, Depth, News};
use std::sync::Wait;
use std::sync::atomic::{AtomicBool, Ordering};
use std::test::Fail;
use std::thread;

/// Ten minutes: a test that a forgotten wake-up leaves asleep has failed long before.
const LONG_MICROS: u64 = 600_000_000;

/// So long waits who rings, so that the other thread sleeps by then.
const SHORT_MICROS: u64 = 20_000;

/// Whether the thread of the bell is rung by those news, once it announced that sleep.
fn is_rung(depth: Depth, news: News) -> bool {
    let bell = Bell::new();
    bell.announce(depth);
    bell.ring(news);
    bell.is_rung_soon()
}

#[test]
fn news_end_the_sleeps_that_wait_for_them(rt: HostRuntime) -> Result<(), Fail> {
    for news in [News::Token, News::Data, News::Halt] {
        assert!(rt; is_rung(Depth::Light, news));
    }
    for news in [News::Data, News::Call, News::Halt] {
        assert!(rt; is_rung(Depth::Deep, news));
    }
    assert!(rt; !is_rung(Depth::Light, News::Call));
    assert!(rt; !is_rung(Depth::Deep, News::Token));
    Ok(())
}

#[test]
fn a_sleep_after_its_ring_ends_at_once(rt: HostRuntime) -> Result<(), Fail> {
    let bell = Bell::new();
    bell.announce(Depth::Deep);
    bell.ring(News::Call);
    bell.sleep(&rt, LONG_MICROS);
    Ok(())
}

/// Sleeps until the bell is rung, and says so.
fn sleep_long<R: Wait>(rt: &R, bell: &Bell, is_over: &AtomicBool) {
    bell.announce(Depth::Deep);
    bell.sleep(rt, LONG_MICROS);
    is_over.store(true, Ordering::SeqCst);
}

/// Rings the bell until the other thread is awake, after a while in which that one falls asleep.
fn ring_late<R: Wait>(rt: &R, bell: &Bell, is_over: &AtomicBool) {
    let own = Bell::new();
    own.announce(Depth::Light);
    own.sleep(rt, SHORT_MICROS);
    for _ in rt.forever() {
        if is_over.load(Ordering::SeqCst) {
            return;
        }
        bell.ring(News::Call);
        thread::yield_now();
    }
}

#[test]
fn a_ring_wakes_who_sleeps(rt: HostRuntime) -> Result<(), Fail> {
    let bell = Bell::new();
    let is_over = AtomicBool::new(false);
    thread::join(
        &rt,
        || sleep_long(&rt, &bell, &is_over),
        || ring_late(&rt, &bell, &is_over),
    );
    assert!(rt; is_over.load(Ordering::SeqCst));
    Ok(())
}
