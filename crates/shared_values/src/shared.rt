ghost use Rattle.std.specs.Prelude.{◌≡◌};
ghost use Rattle.std.specs.Arc.{arc_value};

use std::marker::Model;
use std::sync::Arc;

/// A value that is shared, and not copied. A contract sees it as the value: where it lies says
/// nothing.
#[derive(Debug, Drop)]
pub struct Shared<T> {
    value: Arc<T>,
}

impl<T> Model for Shared<T> {
    ghost use Rattle.std.specs.Arc.{arc_value};

    ghost Value = { T };

    ghost view = { λ s. arc_value s.value };
}

impl<T> Shared<T> {
    /// The value that a pointer leads to. It takes no memory.
    pub fn of(value: Arc<T>) -> Self
        ensures { result ≡ arc_value value }
    {
        Shared { value }
    }

    /// The pointer. It takes no memory.
    pub fn arc(&self) -> &Arc<T>
        ensures { arc_value result.now ≡ self.now }
    {
        &self.value
    }

    /// The value. It takes no memory.
    pub fn get(&self) -> &T
        ensures { result.now ≡ self.now }
    {
        &self.value
    }
}

impl<T: PartialEq> PartialEq for Shared<T> {
    ghost eq = { T.eq };

    ghost laws = { T.laws };

    fn eq(&self, other: &Self) -> bool {
        *self.get() == *other.get()
    }
}

impl<T: Eq> Eq for Shared<T> {
    ghost laws = { T.Eq.laws };
}
