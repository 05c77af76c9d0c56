// A registration that waits for its judgement.
ghost use Rattle.std.specs.Prelude.{◌≡◌, ◌↔◌, Some, true, IfErr, IfOk};
ghost use Rattle.avro_schema.specs.Schema.{schema_of};
ghost use Rattle.reg_levels.specs.Judgement.{IsMadeOf};
ghost use Rattle.reg_levels.specs.JudgedError.{IsJudgedRefusal};
ghost use Rattle.reg_view.specs.Judging.{against};

use crate::against::Against;
use avro_schema::Schema;
use base_text::Text;
use reg_fold::Registry;
use reg_judge::Judge;
use reg_levels::{Judged, JudgedError};
use std::alloc::{AllocError, Global};
use std::marker::Model;

/// A registration that waits for its judgement: its subject, its schema's normal text, and copies
/// of what it is checked against. The first judgement hands the parsed schema to the judge; later
/// ones have its text only.
#[derive(Drop)]
pub struct Case {
    alloc: Global,
    subject: Text,
    new_text: Text,
    schema: Option<Schema>,
    against: Against,
}

impl Model for Case {
    ghost use Rattle.std.specs.Prelude.{◌≡◌, IfSome, Some};
    ghost use Rattle.avro_schema.specs.Schema.{schema_of};
    ghost use Rattle.reg_view.specs.Judging.{Matter};

    ghost Value = { Matter };

    ghost view = { λ c. record { subject = c.subject; new_text = c.new_text; standing = c.against } };

    ghost invariant = { λ c. IfSome c.schema (λ schema. schema_of c.new_text ≡ Some schema) };
}

impl Case {
    /// Makes the case of a schema whose normal text is `new_text`. Takes no memory.
    pub(crate) fn of(
        alloc: Global,
        subject: Text,
        new_text: Text,
        schema: Schema,
        against: Against,
    ) -> Case
        requires { schema_of new_text ≡ Some schema }
        ensures { result ≡ record { subject = subject; new_text = new_text; standing = against } }
    {
        Case {
            alloc,
            subject,
            new_text,
            schema: Some(schema),
            against,
        }
    }

    /// Judges the case. The judge's cache is used if no text that counts is longer than 4,096
    /// bytes, else none is. Refused if a text isn't a schema, the new one first, or if memory is
    /// refused. The case stays the same.
    pub fn judged(&mut self, judge: &mut Judge) -> Result<Judged, JudgedError>
        ensures made { IfOk result (λ j. IsMadeOf j self.old.standing.level self.old.new_text self.old.standing.olds) }
        ensures refused { IfErr result (IsJudgedRefusal self.old.new_text self.old.standing.olds) }
        ensures same { self.new ≡ self.old }
        ensures capacities { judge.new.capacities ≡ judge.old.capacities }
    {
        let schema = self.schema.take();
        self.against
            .judged(self.alloc, &self.new_text, schema, judge)
    }

    /// Judges a case that isn't needed afterwards, with the errors of [`Case::judged`].
    pub(crate) fn into_judged(self, judge: &mut Judge) -> Result<Judged, JudgedError>
        ensures made { IfOk result (λ j. IsMadeOf j self.standing.level self.new_text self.standing.olds) }
        ensures refused { IfErr result (IsJudgedRefusal self.new_text self.standing.olds) }
        ensures capacities { judge.new.capacities ≡ judge.old.capacities }
    {
        let mut case = self;
        case.judged(judge)
    }

    /// Returns whether the registration would be checked against the same over this registry. The
    /// only error is out of memory.
    pub fn stands(&self, registry: &Registry) -> Result<bool, AllocError>
        ensures { IfOk result (λ yes. (yes ≡ true) ↔ (against registry.now self.now.subject ≡ self.now.standing)) }
    {
        self.against.stands(self.alloc, registry, &self.subject)
    }

    /// Makes the case of the same registration over another registry. The only error is out of
    /// memory.
    pub fn anew(self, registry: &Registry) -> Result<Case, AllocError>
        ensures { IfOk result (λ case. case ≡ record self { standing = against registry.now self.subject }) }
    {
        let Case {
            alloc,
            subject,
            new_text,
            schema,
            against: _,
        } = self;
        let against = Against::over(alloc, registry, &subject)?;
        Ok(Case {
            alloc,
            subject,
            new_text,
            schema,
            against,
        })
    }
}
