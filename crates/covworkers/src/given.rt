//! Submissions of workers, packed or not.

use covbook::{Op, PackedRef, SubRef};
use std::alloc::{Allocator, Global};
use std::marker::Model;

/// A submission, packed or not. Contracts see the same submission in both forms.
#[derive(Drop)]
pub struct Given<A: Allocator = Global> {
    form: Form<A>,
}

/// The two forms of a submission.
#[derive(Drop)]
enum Form<A: Allocator> {
    Plain(SubRef<A>),
    Packed(PackedRef<A>),
}

impl<A: Allocator> Model for Given<A> {
    ghost use Rattle.covworkers.specs.GivenView.{form_data};
    ghost use Rattle.covdata.specs.Row.{SubmissionData};

    ghost Value = { SubmissionData };

    ghost view = { λ a. form_data a.form };
}

impl<A: Allocator> Given<A> {
    ghost use Rattle.std.specs.Prelude.{◌≡◌};
    ghost use Rattle.covbook.specs.Op.{SubmitOp};
    ghost use Rattle.covbook.specs.View.{op_data};

    /// Wraps a submission that isn't packed.
    pub fn plain(submission: SubRef<A>) -> Given<A>
        ensures { result ≡ submission }
    {
        Given {
            form: Form::Plain(submission),
        }
    }

    /// Wraps a packed submission.
    pub fn packed(submission: PackedRef<A>) -> Given<A>
        ensures { result ≡ submission }
    {
        Given {
            form: Form::Packed(submission),
        }
    }

    /// Turns the submission into the operation that submits it.
    pub fn into_op(self) -> Op<A>
        ensures { op_data result ≡ SubmitOp self }
    {
        match self.form {
            Form::Plain(submission) => Op::Submit(submission),
            Form::Packed(submission) => Op::SubmitPacked(submission),
        }
    }
}
