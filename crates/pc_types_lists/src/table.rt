//! The facts of interned types, and of types made of them.

ghost use Rattle.std.specs.Prelude.{◌≡◌, All};
ghost use Rattle.pc_types_lists.specs.Table.{no_table, Knows, MayKnow, KnowsFunc, HasFacts, MayHaveFacts, FuncHas};
ghost use Rattle.pc_types_lists.specs.Table.{TupleHas, RecordHas, VariantHas, ListHas, OptionHas, ResultHas, AreJoined};

use crate::{FactList, TypeFacts};
use pc_entity::Text;
use pc_types::{
    InterfaceType, TypeFunc, TypeList, TypeOption, TypeRecord, TypeResult, TypeTuple, TypeVariant,
};
use std::alloc::Global;

/// The facts of the types of each kind that has parts, by number.
#[derive(Drop)]
pub struct FactTable {
    pub funcs: FactList,
    pub tuples: FactList,
    pub records: FactList,
    pub variants: FactList,
    pub lists: FactList,
    pub options: FactList,
    pub results: FactList,
}

impl FactTable {
    /// The table with no facts, which takes no memory.
    pub fn new(alloc: Global) -> FactTable
        ensures { result ≡ no_table }
    {
        FactTable {
            funcs: FactList::new(alloc),
            tuples: FactList::new(alloc),
            records: FactList::new(alloc),
            variants: FactList::new(alloc),
            lists: FactList::new(alloc),
            options: FactList::new(alloc),
            results: FactList::new(alloc),
        }
    }

    /// The facts of a value type.
    pub fn facts(&self, w: InterfaceType) -> TypeFacts
        requires known { Knows self.now w }
        ensures { HasFacts self.now w result }
    {
        let mut facts = TypeFacts::none();
        match w {
            InterfaceType::String => facts.string = true,
            InterfaceType::Own(_) => facts.own = true,
            InterfaceType::Borrow(_) => facts.borrow = true,
            InterfaceType::Future(_) => facts.future = true,
            InterfaceType::Stream(_) => facts.stream = true,
            InterfaceType::ErrorContext(_) => facts.error_context = true,
            InterfaceType::Tuple(i) => facts = self.tuples.get(i.0),
            InterfaceType::Record(i) => facts = self.records.get(i.0),
            InterfaceType::Variant(i) => facts = self.variants.get(i.0),
            InterfaceType::List(i) => facts = self.lists.get(i.0),
            InterfaceType::Option(i) => facts = self.options.get(i.0),
            InterfaceType::Result(i) => facts = self.results.get(i.0),
            _ => {}
        }
        facts
    }

    /// The facts of a value type that may be left out, which has none where it is.
    pub fn maybe_facts(&self, w: Option<InterfaceType>) -> TypeFacts
        requires known { MayKnow self.now w }
        ensures { MayHaveFacts self.now w result }
    {
        match w {
            Some(w) => self.facts(w),
            None => TypeFacts::none(),
        }
    }

    /// The facts of a function type: of its parameters and results.
    pub fn of_func(&self, f: &TypeFunc) -> TypeFacts
        requires known { KnowsFunc self.now f.now }
        ensures { FuncHas self.now f.now result }
    {
        self.tuples
            .get(f.params.0)
            .join(self.tuples.get(f.results.0))
    }

    /// The facts of a tuple type.
    pub fn of_tuple(&self, t: &TypeTuple) -> TypeFacts
        requires known { All (Knows self.now) t.now.types }
        ensures { TupleHas self.now t.now result }
    {
        self.of_types(t.types.as_slice())
    }

    /// The facts of a record type.
    pub fn of_record(&self, r: &TypeRecord) -> TypeFacts
        requires known { All (λ f. Knows self.now f.1) r.now.fields }
        ensures { RecordHas self.now r.now result }
    {
        self.of_fields(r.fields.as_slice())
    }

    /// The facts of a variant type.
    pub fn of_variant(&self, v: &TypeVariant) -> TypeFacts
        requires known { All (λ c. MayKnow self.now c.1) v.now.cases }
        ensures { VariantHas self.now v.now result }
    {
        self.of_cases(v.cases.as_slice())
    }

    /// The facts of a list type, itself among them.
    pub fn of_list(&self, l: &TypeList) -> TypeFacts
        requires known { Knows self.now l.now.element }
        ensures { ListHas self.now l.now result }
    {
        let mut facts = self.facts(l.element);
        facts.list = true;
        facts
    }

    /// The facts of an option type.
    pub fn of_option(&self, o: &TypeOption) -> TypeFacts
        requires known { Knows self.now o.now.ty }
        ensures { OptionHas self.now o.now result }
    {
        self.facts(o.ty)
    }

    /// The facts of a result type.
    pub fn of_result(&self, r: &TypeResult) -> TypeFacts
        requires ok_known { MayKnow self.now r.now.ok }
        requires err_known { MayKnow self.now r.now.err }
        ensures { ResultHas self.now r.now result }
    {
        self.maybe_facts(r.ok).join(self.maybe_facts(r.err))
    }

    fn of_types(&self, types: &[InterfaceType]) -> TypeFacts
        requires known { All (Knows self.now) types.now }
        ensures { AreJoined (HasFacts self.now) types.now result }
    {
        let mut all = TypeFacts::none();
        for ty in types {
            all = all.join(self.facts(*ty));
        }
        all
    }

    fn of_fields(&self, fields: &[(Text, InterfaceType)]) -> TypeFacts
        requires known { All (λ f. Knows self.now f.1) fields.now }
        ensures { AreJoined (λ f. HasFacts self.now f.1) fields.now result }
    {
        let mut all = TypeFacts::none();
        for field in fields {
            all = all.join(self.facts(field.1));
        }
        all
    }

    fn of_cases(&self, cases: &[(Text, Option<InterfaceType>)]) -> TypeFacts
        requires known { All (λ c. MayKnow self.now c.1) cases.now }
        ensures { AreJoined (λ c. MayHaveFacts self.now c.1) cases.now result }
    {
        let mut all = TypeFacts::none();
        for case in cases {
            all = all.join(self.maybe_facts(case.1));
        }
        all
    }
}
