//! The book, its jobs and its sessions over covstore's `Store`, under the names that callers know.
//!
//! covreport, covbook, covlock, covworkers, covjobs and covsession work over any `covreport::Table`. This crate names their types and calls over
//! `Store`. Each call has the contract of the call that it stands for.
#![tactic(auto)]

mod collecting;
mod sessions;
mod shared;

pub use collecting::{collect, collect_into_book, collect_owned};
use covbook::{Entry, Keep};
use covdata::ReadFault;
use covlock::Name;
use covstore::{Plan, Renaming, Store};
pub use sessions::{run_session, session};
pub use shared::{open_book, open_book_keeping};
use std::alloc::{Allocator, Global};

/// A text that is ready to be printed, of a `Store`.
pub type Printing<'s, A: Allocator + Copy = Global> = covreport::Printing<'s, A, Store<A>>;

/// A book over a `Store`. `K` is the part of each entry that the book stores.
pub type Book<A: Allocator + Copy = Global, K: Keep<Of = Entry<A>> = Entry<A>> = covbook::Book<
    A,
    Store<A>,
    K,
>;

/// A step of a `Book` that the book can finish without allocating.
pub type Ready<A: Allocator + Copy = Global> = covbook::Ready<A, Plan, Renaming<A>>;

/// A `Book` with a lock.
pub type Shared<L: Name, A: Allocator + Copy = Global, K: Keep<Of = Entry<A>> = Entry<A>> =
    covlock::Shared<L, A, Store<A>, K>;

/// The result of `collect_into_book`.
pub type CollectedBook<F: Drop = ReadFault> = covworkers::CollectedBook<Store, F>;
