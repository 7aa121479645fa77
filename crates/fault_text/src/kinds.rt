// The names of kinds of fault, and of constructs that are not built.
ghost use Rattle.std.specs.Prelude.{◌≡◌};
ghost use Rattle.fault_text.specs.Kinds.{kind_name, construct_name};

use bpl_scopes::{Construct, TypeKind};

/// The kind's name.
pub fn kind_name(kind: TypeKind) -> &'static [u8]
    ensures { result.now ≡ kind_name kind }
{
    match kind {
        TypeKind::Twice => b"Twice",
        TypeKind::Unknown => b"Unknown",
        TypeKind::Kind => b"Kind",
        TypeKind::Sort => b"Sort",
        TypeKind::Arity => b"Arity",
        TypeKind::NotAssignable => b"NotAssignable",
        TypeKind::NotModified => b"NotModified",
        TypeKind::TargetTwice => b"TargetTwice",
        TypeKind::OldHere => b"OldHere",
        TypeKind::QuantifierHere => b"QuantifierHere",
        TypeKind::Trigger => b"Trigger",
        TypeKind::BreakHere => b"BreakHere",
        TypeKind::Cycle => b"Cycle",
        TypeKind::Unbuilt(_) => b"Unbuilt",
        TypeKind::GotoHere => b"GotoHere",
        TypeKind::Labels => b"Labels",
    }
}

/// The construct's name.
pub fn construct_name(construct: Construct) -> &'static [u8]
    ensures { result.now ≡ construct_name construct }
{
    match construct {
        Construct::WhereWord => b"where",
        Construct::TypeWord => b"type",
        Construct::UniqueWord => b"unique",
        Construct::Uninterpreted => b"uninterpreted",
        Construct::Polymorphic => b"polymorphic",
        Construct::Domain => b"domain",
    }
}
