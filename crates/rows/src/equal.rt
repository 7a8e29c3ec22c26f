// Equality of values: a recursion on rows, which name earlier rows.
ghost use Rattle.std.specs.Prelude.{◌≡◌};
ghost use Rattle.std.specs.List.{All};
ghost use Rattle.model.specs.Trees.{eq_tree, eq_trees};
ghost use Rattle.rows.specs.Rows.{values, values_at};
ghost use Rattle.rows.specs.Classes.{IsRow, IsFirst, value_at};

use crate::rows::Rows;

impl Rows {
    /// Whether two rows have equal values: a recursion on the rows that they name, which are earlier ones.
    ///
    /// It goes one row down at most. The parts of a row are first rows, each the first with its value, and two first rows have equal
    /// values only if they are one; so a call for two parts answers without another.
    #[cycle(equality)]
    pub(crate) fn equal(&self, left: usize, right: usize) -> bool
        requires left { IsRow self.now.entries.items left }
        requires right { IsRow self.now.entries.items right }
        ensures { result ≡ eq_tree (value_at self.now.entries.items left) (value_at self.now.entries.items right) }
    {
        if left == right {
            return true;
        }
        let one = self.entry(left);
        let other = self.entry(right);
        if one.class as usize == left && other.class as usize == right {
            return false;
        }
        one.row.is_like(&other.row) && self.equal_parts(one.row.parts(), other.row.parts())
    }

    // Whether rows have the values of other rows, each in its place: those with unlike numbers are gone into.
    #[cycle(equality)]
    fn equal_parts(&self, left: &[u16], right: &[u16]) -> bool
        requires left { All (IsFirst self.now.entries.items) left.now }
        requires right { All (IsFirst self.now.entries.items) right.now }
        ensures { result ≡ eq_trees (values_at (values self.now.entries.items) left.now) (values_at (values self.now.entries.items) right.now) }
    {
        if left.len() != right.len() {
            return false;
        }
        for (place, part) in left.iter().enumerate() {
            let other = right[place];
            if *part != other && !self.equal(*part as usize, other as usize) {
                return false;
            }
        }
        true
    }
}
