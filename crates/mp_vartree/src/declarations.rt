//! What was declared of patterns, and what that says of names.

ghost use Rattle.std.specs.Prelude.{◌≡◌, []};
ghost use Rattle.std.specs.Option.{option_map};
ghost use Rattle.std.specs.FinMap.{get};
ghost use Rattle.mp_vartree.specs.Names.{pattern_of};
ghost use Rattle.mp_vartree.specs.Declarations as declarations;
ghost use Rattle.mp_vartree.specs.Declarations.{kind_in, macro_in};

use crate::entry::Declared;
use crate::pattern_tree::PatternTree;
use crate::{Part, Shape};
use mp_scaled::Shared;
use mp_values::{Kind, Macro};

/// What was declared, by patterns.
pub type Declarations = PatternTree<Declared>;

impl PatternTree<Declared> {
    /// The macro of the empty pattern.
    fn macro_here(&self) -> Option<&Shared<Macro>>
        ensures { option_map (λ m. m.now) result ≡ macro_in (get self.now.paths []) }
    {
        match self.held() {
            Some(Declared::Macro(m)) => Some(m),
            _ => None,
        }
    }

    /// The declared type of a name.
    pub fn kind_of(&self, name: &[Part]) -> Option<Kind>
        ensures { result ≡ kind_in (get self.now.paths (pattern_of name.now)) }
    {
        match self.get(name) {
            Some(Declared::Typed(kind)) => Some(*kind),
            _ => None,
        }
    }

    /// The macro of the shortest beginning of a name that is a macro's name, and the number of parts in that.
    pub fn first_macro(&self, name: &[Part]) -> Option<(&Shared<Macro>, usize)>
        ensures { option_map (λ m. (m.0.now, m.1)) result
            ≡ declarations.first_macro (λ pattern. macro_in (get self.now.paths pattern)) (pattern_of name.now) 0 }
    {
        let mut node = self;
        'walk: for (count, part) in name.iter().enumerate() {
            if let Some(m) = node.macro_here() {
                return Some((m, count));
            }
            match node.child(Shape::of(*part)) {
                None => return None,
                Some(child) => node = child,
            }
        }
        match node.macro_here() {
            Some(m) => Some((m, name.len())),
            None => None,
        }
    }

    /// Whether a shorter beginning of a pattern is a macro's name.
    pub fn is_below_macro(&self, pattern: &[Shape]) -> bool
        ensures { result ≡ declarations.is_below_macro (λ pattern. macro_in (get self.now.paths pattern)) pattern.now }
    {
        let mut node = self;
        'walk: for shape in pattern {
            if node.macro_here().is_some() {
                return true;
            }
            match node.child(*shape) {
                None => return false,
                Some(child) => node = child,
            }
        }
        false
    }
}
