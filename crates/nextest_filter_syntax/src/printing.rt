//! Filters printed as texts.

use crate::parsed_expr::ParsedExpr;
use std::fmt;

impl<S> ParsedExpr<S> {
    ghost use Rattle.std.specs.Prelude.{◌≡◌, ◌<◌};
    ghost use Rattle.std.specs.Fmt.{WritesOnOk};
    ghost use Rattle.nextest_filter_syntax.specs.Trees.{tree_of};
    ghost use Rattle.nextest_filter_syntax.specs.TreeTexts.{tree_text};
    ghost use Rattle.nextest_filter_syntax.specs.Levels.{closing, closings, descended, left_of, opening, openings};

    /// The operand on the left; of a leaf the leaf itself.
    fn left(&self) -> &ParsedExpr<S>
        ensures { tree_of result.now ≡ left_of (tree_of self.now) }
    {
        match self {
            ParsedExpr::Not(_, x)
            | ParsedExpr::Union(_, x, _)
            | ParsedExpr::Intersection(_, x, _)
            | ParsedExpr::Difference(_, x, _)
            | ParsedExpr::Parens(x) => x,
            ParsedExpr::Set(_) => self,
        }
    }

    /// The filter so many levels down the left side.
    fn descend(&self, mut levels: usize) -> &ParsedExpr<S>
        ensures { tree_of result.now ≡ descended levels (tree_of self.now) }
    {
        let mut rest = self;
        while levels > 0 {
            rest = rest.left();
            levels -= 1;
        }
        rest
    }

    /// How many levels the left side has, at least one, as far as a `usize` counts.
    fn left_levels(&self) -> usize
        ensures { 0 < result }
    {
        let mut levels = 1;
        let mut rest = self.left();
        while levels < usize::MAX && !matches!(rest, ParsedExpr::Set(_)) {
            rest = rest.left();
            levels += 1;
        }
        levels
    }

    /// Writes what stands before the operand on the left.
    fn write_opening<W: fmt::Write>(&self, f: &mut fmt::Formatter<W>) -> fmt::Result
        ensures { WritesOnOk W.write_str_gives f.old result (opening (tree_of self.now)) f.new }
    {
        match self {
            ParsedExpr::Not(op, _) => write!(f, "{op} "),
            ParsedExpr::Parens(_) => f.write_str("("),
            ParsedExpr::Union(..)
            | ParsedExpr::Intersection(..)
            | ParsedExpr::Difference(..)
            | ParsedExpr::Set(_) => Ok(()),
        }
    }

    /// Writes what stands before the filter so many levels down.
    fn write_openings<W: fmt::Write>(
        &self,
        mut levels: usize,
        f: &mut fmt::Formatter<W>,
    ) -> fmt::Result
        ensures { WritesOnOk W.write_str_gives f.old result (openings levels (tree_of self.now))
            f.new }
    {
        let mut rest = self;
        while levels > 0 {
            rest.write_opening(f)?;
            rest = rest.left();
            levels -= 1;
        }
        Ok(())
    }

    /// Writes the filter: what stands before its innermost operand, that operand, and what stands after it.
    #[cycle(writing)]
    pub(crate) fn write_to<W: fmt::Write>(&self, f: &mut fmt::Formatter<W>) -> fmt::Result
        ensures { WritesOnOk W.write_str_gives f.old result (tree_text (tree_of self.now)) f.new }
    {
        if let ParsedExpr::Set(leaf) = self {
            return write!(f, "{leaf}");
        }
        let levels = self.left_levels();
        self.write_openings(levels, f)?;
        self.descend(levels).write_to(f)?;
        self.write_closings(levels, f)
    }

    /// Writes what stands after the filter so many levels down, the inner half of the levels first, so
    /// that few calls are open at a time.
    #[cycle(writing)]
    fn write_closings<W: fmt::Write>(&self, levels: usize, f: &mut fmt::Formatter<W>) -> fmt::Result
        ensures { WritesOnOk W.write_str_gives f.old result (closings levels (tree_of self.now))
            f.new }
    {
        match levels {
            0 => Ok(()),
            1 => self.write_closing(f),
            _ => {
                let outer = levels / 2;
                self.descend(outer).write_closings(levels - outer, f)?;
                self.write_closings(outer, f)
            }
        }
    }

    /// Writes what stands after the operand on the left.
    #[cycle(writing)]
    fn write_closing<W: fmt::Write>(&self, f: &mut fmt::Formatter<W>) -> fmt::Result
        ensures { WritesOnOk W.write_str_gives f.old result (closing (tree_of self.now)) f.new }
    {
        match self {
            ParsedExpr::Union(op, _, y) => {
                write!(f, " {op} ")?;
                y.write_to(f)
            }
            ParsedExpr::Intersection(op, _, y) => {
                write!(f, " {op} ")?;
                y.write_to(f)
            }
            ParsedExpr::Difference(op, _, y) => {
                write!(f, " {op} ")?;
                y.write_to(f)
            }
            ParsedExpr::Parens(_) => f.write_str(")"),
            ParsedExpr::Not(..) | ParsedExpr::Set(_) => Ok(()),
        }
    }
}
