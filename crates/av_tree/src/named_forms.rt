//! Which operations have a named form, by their names.

ghost use Rattle.std.specs.Prelude.{◌≡◌};
ghost use Rattle.av_tree.specs.Templates.{template_of};

use super::types::Template;
use av_dialects::row_of;

/// The named form of an operation with this name, if it has one.
pub fn template(name: &[u8]) -> Option<Template>
    ensures { result ≡ template_of name.now }
{
    match row_of(name) {
        Some(operation) => Some(Template { operation }),
        None => None,
    }
}
