//! The old and the new values of a changed piece, put in and taken out at their ranks among the values of all pieces.

ghost use Rattle.std.specs.Prelude.{◌≡◌, ◌≢◌, ◌+◌, ◌-◌, ◌^◌, ◌<◌, ◌≤◌, length};
ghost use Rattle.gl_delta.specs.Marks.{piece_of, kind_of};
ghost use Rattle.gl_delta.specs.Store.{spliced, told_old, told_new, told_count};
ghost use Rattle.gl_delta.specs.declared.mark.Side.TheVariants.{Old, New};
ghost use Rattle.gl_delta.specs.declared.mark.Kind.TheVariants.{Kept};

use crate::mark::{Changed, Kind};
use crate::ranked::Ranked;

/// Puts the values of a changed piece in, in room that there is. It takes no memory.
pub(crate) fn put_values(
    olds: &mut Ranked,
    news: &mut Ranked,
    old: usize,
    new: usize,
    change: Changed,
)
    requires old { old ≤ length olds.old.values }
    requires new { new ≤ length news.old.values }
    requires few_old { length olds.old.values + 1 < 2 ^ 32 - 1 }
    requires few_new { length news.old.values + 1 < 2 ^ 32 - 1 }
    requires spare_old { length olds.old.values < olds.old.room }
    requires spare_new { length news.old.values < news.old.room }
    ensures olds { olds.new.values ≡ spliced olds.old.values old (told_old (piece_of change)) }
    ensures news { news.new.values ≡ spliced news.old.values new (told_new (piece_of change)) }
    ensures room_old { olds.new.room ≡ olds.old.room }
    ensures room_new { news.new.room ≡ news.old.room }
{
    match change {
        Changed::Updated(v, w) => {
            olds.insert(old, v);
            news.insert(new, w);
        }
        Changed::Deleted(v) => olds.insert(old, v),
        Changed::Inserted(w) => news.insert(new, w),
    }
}

/// Takes the values of a piece of this kind out.
pub(crate) fn take_values(
    olds: &mut Ranked,
    news: &mut Ranked,
    old: usize,
    new: usize,
    kind: Kind,
) -> Changed
    requires changed { kind ≢ Kept }
    requires old { old + told_count Old kind ≤ length olds.old.values }
    requires new { new + told_count New kind ≤ length news.old.values }
    ensures kind { kind_of (piece_of result) ≡ kind }
    ensures olds { olds.old.values ≡ spliced olds.new.values old (told_old (piece_of result)) }
    ensures news { news.old.values ≡ spliced news.new.values new (told_new (piece_of result)) }
    ensures room_old { olds.new.room ≡ olds.old.room }
    ensures room_new { news.new.room ≡ news.old.room }
{
    match kind {
        Kind::Kept => unreachable!(),
        Kind::Updated => {
            let v = olds.take(old);
            let w = news.take(new);
            Changed::Updated(v, w)
        }
        Kind::Deleted => Changed::Deleted(olds.take(old)),
        Kind::Inserted => Changed::Inserted(news.take(new)),
    }
}
