// The types of what a program declares.

/// A type.
#[derive(Drop)]
pub enum Ty {
    /// The integers.
    Int,
    /// The truth values.
    Bool,
    /// The carriers of a user type, by its number from 0 in the order of the text.
    User(u64),
    /// The maps from integers to values of a type.
    Map(Box<Ty>),
}

/// The types of what a program declares, in the order of the numbers of constants, of global
/// variables, of functions and of procedures. Functions have the types of their parameters and of
/// their values; procedures those of their parameters and locals.
#[derive(Drop)]
pub struct Types {
    pub consts: Vec<Ty>,
    pub globals: Vec<Ty>,
    pub funcs: Vec<(Vec<Ty>, Ty)>,
    pub procs: Vec<Vec<Ty>>,
}
