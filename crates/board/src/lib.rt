//! One history that threads share: a board on which batches are posted and fetched, snapshots kept and recalled.
//!
//! A [`Board`] is shared by reference; each thread calls it through a [`Seat`] of its own. Every call that does or
//! finds something is one entry of one history, answered as a board of a single caller would answer it there
//! (linearizability: Herlihy and Wing 1990); which replies those are is a definition of `ball_model`. Contracts see a
//! seat as its number and the history that it has seen, a beginning of the one there is. After a call the seat has seen
//! all of it, so its own entry, if it has one, is the last.
//!
//! ```text
//!   the history   Open 1 2 3 4 5 6 7      one call:  draw a ticket, wait until it is served,
//!   seat A saw    |--------|                         take the book, ask it, give it back,
//!   seat B saw    |-------------|                    write the length, serve the next ticket
//! ```
//!
//! Proved callers: `uses::of_board::{board_for_two, post_and_fetch, join_and_count}`.
//!
//! Calls take turns by a ticket lock over three words, and what they ask lies in one slot, the book: the entries, the
//! floor, the batches by name, and the furthest snapshot of each partition. A call holds its turn for its own work
//! alone: a search among the batches, and an entry of the history. What it displaces is dropped after its turn. No rows
//! are copied, and nothing is in proportion to the history.
//!
//! While a caller waits with a ticket, mostly nobody else draws one: a caller that comes then looks some sixty times,
//! and then sleeps, 50 microseconds at first and 800 later, at most a thousand times. A caller with a ticket looks some
//! sixty times, and then sleeps until it is woken. So the queue is short: however many threads call, a caller waits only
//! for a few of them to be given a processor.
//!
//! An entry takes about 24 bytes. [`Board::length`] and [`Board::join`] take no turn and no memory.
#![tactic(auto)]

mod board;
mod book;
mod calls;
mod error;
mod event;
mod rule;
mod seat;
mod turn;

pub use board::{Board, LEAST_ENTRIES, MOST_ENTRIES};
pub use error::BoardError;
pub use seat::Seat;
