// Procedures.
use crate::decl::Local;
use crate::name::Name;
use crate::spec::Spec;
use crate::stmt::Stmt;
use std::marker::Model;

/// A procedure: its in-parameters, outs and locals, its contract, and its body where it has one.
pub struct Proc {
    pub name: Name,
    pub ins: Vec<Local>,
    pub outs: Vec<Local>,
    pub locals: Vec<Local>,
    pub specs: Vec<Spec>,
    pub body: Option<Vec<Stmt>>,
}

// Written out: a derived drop is proved again wherever a value is dropped.
impl Drop for Proc {
    fn drop(self) {
        let Proc {
            name,
            ins,
            outs,
            locals,
            specs,
            body,
        } = self;
        drop(name);
        drop(ins);
        drop(outs);
        drop(locals);
        drop(specs);
        drop(body);
    }
}

impl Model for Proc {
    ghost use Rattle.bpl_model.specs.Module.{Proc as procedure};
    ghost use Rattle.bpl_model.specs.Codes.{coded_proc};
    ghost use Rattle.bpl_model.specs.StmtView.{body_of};

    ghost Value = { procedure };

    ghost coded = { coded_proc };

    ghost view = { λ a. record { name = a.name; ins = a.ins.items; outs = a.outs.items; locals = a.locals.items; specs = a.specs.items; body = body_of a.body } };
}
