ghost use Rattle.std.specs.Prelude.{◌≡◌, [], ◌∷◌, MatchOption};

use crate::Seq;
use std::marker::Model;
use std::vec::IntoIter;

/// The elements of a list that are still to come, which contracts see as a list.
#[derive(Drop)]
pub struct Rest<T> {
    items: IntoIter<T>,
}

impl<T> Model for Rest<T> {
    ghost use Rattle.std.specs.Prelude.{List};
    ghost use Rattle.std.specs.Coded.{coded_list};
    ghost use Rattle.std.specs.Vec.Iter.{into_iter_items};

    ghost Value = { List T };

    ghost coded = { coded_list T.code };

    ghost view = { λ r. into_iter_items r.items };
}

impl<T> Rest<T> {
    /// The elements of a list, in its memory.
    pub fn of(list: Seq<T>) -> Rest<T>
        ensures { result ≡ list }
    {
        Rest {
            items: list.into_vec().into_iter(),
        }
    }

    /// The next element, if there is one.
    pub fn next(&mut self) -> Option<T>
        ensures { MatchOption result (self.old ≡ []) (λ x. self.old ≡ x ∷ self.new) }
    {
        self.items.next()
    }
}
