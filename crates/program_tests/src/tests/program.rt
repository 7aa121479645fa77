// A program, typed:
//
//     const c: int;
//     axiom c == 0;
//     function f(n: int): int { n + 1 }
//     var g: int;
//     procedure Copy(n: int) returns (r: int);
//       modifies g;
//       ensures r == n && g == old(g);
//     procedure Main() returns (x: int)
//       modifies g;
//     {
//       x := f(c);
//       goto L;
//       L: while (*) invariant x == f(c); { call x := Copy(x); }
//       assert x == f(c);
//     }
//
// c is variable 0, g is 1 and its entry value 2; n and x are 3, and r is 4.
ghost use Rattle.std.specs.Prelude.{◌≡◌, [], IfOk, IfSome, Some};
ghost use Rattle.bpl_model.specs.StmtView.{stmts_of};
ghost use Rattle.bpl_goto.specs.Forward.{AllGoForward, BodyGoesForward, GoesForward};
ghost use Rattle.bpl_goto.specs.Labels.{labels_in};

use super::terms::{applied, constant_is_zero, equal, var};
use bpl_model::{
    Const, DeclText, Function, GoalKind, Invariant, Local, Mark, Module, Name, Parts, Place, Proc,
    Spec, SpecForm, Stmt, StmtForm,
};
use bpl_typing::is_typed;
use logic_core::{Def, Node, Sequence, Sort, Term};
use std::alloc::{AllocError, Global};

/// Each declaration, the declarations to which it leads, and those to which it does without its body.
const DECLARED: &[(&str, &[u64], &[u64])] = &[
    ("c", &[], &[]),
    ("@1", &[0], &[0]),
    ("f", &[], &[]),
    ("g", &[], &[]),
    ("Copy", &[3], &[3]),
    ("Main", &[0, 2, 3, 4], &[3]),
];

fn at(line: u32) -> Place {
    Place { line, col: 3 }
}

fn name(alloc: Global, text: &str) -> Result<Name, AllocError> {
    Ok(Name {
        text: String::from_str(alloc, text)?,
    })
}

fn texts(alloc: Global) -> Result<Vec<DeclText>, AllocError> {
    let mut texts = Vec::new(alloc);
    for (declared, leads, contract_leads) in DECLARED {
        texts.push(DeclText {
            name: name(alloc, declared)?,
            text: Vec::new(alloc),
            contract: Vec::new(alloc),
            leads: Vec::from_slice(alloc, leads)?,
            contract_leads: Vec::from_slice(alloc, contract_leads)?,
        })?;
    }
    Ok(texts)
}

fn function(alloc: Global) -> Result<Function, AllocError> {
    let bound = vec![in alloc; (1, Term::new(Node::Bound(0)))]?;
    Ok(Function {
        name: name(alloc, "f")?,
        def: Def {
            params: Sequence::of(vec![in alloc; Sort::int()]?),
            sort: Sort::int(),
            logical: false,
            body: Term::new(Node::Sum(bound, 1)),
        },
    })
}

fn global(alloc: Global) -> Result<bpl_model::Global, AllocError> {
    Ok(bpl_model::Global {
        name: name(alloc, "g")?,
        sort: Sort::int(),
        clause: None,
    })
}

fn local(alloc: Global, text: &str) -> Result<Local, AllocError> {
    Ok(Local {
        name: name(alloc, text)?,
        sort: Sort::int(),
        own: false,
        clause: None,
    })
}

fn modifies(alloc: Global) -> Result<Spec, AllocError> {
    Ok(Spec::new(SpecForm::Modifies(vec![in alloc; 1]?)))
}

fn ensures_copy(alloc: Global) -> Result<Spec, AllocError> {
    let copied = equal(alloc, var(4), var(3))?;
    let kept = equal(alloc, var(1), var(2))?;
    let both = Term::new(Node::And(vec![in alloc; copied, kept]?));
    Ok(Spec::new(SpecForm::Ensures(false, at(3), both)))
}

fn callee(alloc: Global) -> Result<Proc, AllocError>
    ensures { IfOk result (λ p. BodyGoesForward p.body) }
{
    Ok(Proc {
        name: name(alloc, "Copy")?,
        ins: vec![in alloc; local(alloc, "n")?]?,
        outs: vec![in alloc; local(alloc, "r")?]?,
        locals: Vec::new(alloc),
        specs: vec![in alloc; modifies(alloc)?, ensures_copy(alloc)?]?,
        body: None,
    })
}

fn is_applied(alloc: Global) -> Result<Term, AllocError> {
    equal(alloc, var(3), applied(alloc)?)
}

// The loop, without its label.
fn repeat(alloc: Global) -> Result<Stmt, AllocError>
    ensures forward { IfOk result (λ s. GoesForward [] s) }
    ensures labels { IfOk result (λ s. labels_in s ≡ []) }
{
    let invariant = Invariant {
        free: false,
        place: at(5),
        formula: is_applied(alloc)?,
    };
    let arguments = vec![in alloc; var(3)]?;
    let call = Stmt::new(StmtForm::Call(at(6), 0, arguments, vec![in alloc; 3]?));
    let body = vec![in alloc; call]?;
    Ok(Stmt::new(StmtForm::While(at(4), None, vec![in alloc; invariant]?, body)))
}

fn body(alloc: Global) -> Result<Vec<Stmt>, AllocError>
    ensures { IfOk result (λ v. BodyGoesForward (Some (stmts_of v.items))) }
{
    let label = name(alloc, "L")?;
    let set = StmtForm::Assign(at(2), vec![in alloc; (3, applied(alloc)?)]?);
    let jump = StmtForm::Goto(at(3), vec![in alloc; label.copy(alloc)?]?);
    let labelled = StmtForm::Labelled(vec![in alloc; label]?, Box::new(alloc, repeat(alloc)?)?);
    let mark = Mark {
        place: at(7),
        kind: GoalKind::Assert,
    };
    let checked = StmtForm::Assert(mark, is_applied(alloc)?);
    Ok(vec![in alloc;
        Stmt::new(set),
        Stmt::new(jump),
        Stmt::new(labelled),
        Stmt::new(checked),
    ]?)
}

fn caller(alloc: Global) -> Result<Proc, AllocError>
    ensures { IfOk result (λ p. BodyGoesForward p.body) }
{
    Ok(Proc {
        name: name(alloc, "Main")?,
        ins: Vec::new(alloc),
        outs: vec![in alloc; local(alloc, "x")?]?,
        locals: Vec::new(alloc),
        specs: vec![in alloc; modifies(alloc)?]?,
        body: Some(body(alloc)?),
    })
}

fn parts(alloc: Global) -> Result<Parts, AllocError>
    ensures { IfOk result (λ p. AllGoForward p) }
{
    let constant = Const {
        name: name(alloc, "c")?,
        sort: Sort::int(),
    };
    Ok(Parts {
        consts: vec![in alloc; constant]?,
        axioms: vec![in alloc; constant_is_zero(alloc)?]?,
        functions: vec![in alloc; function(alloc)?]?,
        globals: vec![in alloc; global(alloc)?]?,
        procs: vec![in alloc; callee(alloc)?, caller(alloc)?]?,
        texts: texts(alloc)?,
    })
}

/// The program; None where it isn't typed.
pub fn program(alloc: Global) -> Result<Option<Module>, AllocError>
    ensures { IfOk result (λ o. IfSome o (λ m. AllGoForward m)) }
{
    let parts = parts(alloc)?;
    if is_typed(alloc, &parts)? {
        Ok(Some(Module::new(parts)))
    } else {
        Ok(None)
    }
}
