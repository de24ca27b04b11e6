//! What a run keeps beside its units and its core.

ghost use Rattle.std.specs.Prelude.{◌≡◌, ◌++◌, ◌∷◌, [], IfOk, IfSome, OnOk, option_copied, true};
ghost use Rattle.gnb_types.specs.Orders.{ue_cmp, entity_cmp};
ghost use Rattle.tables.specs.Tables.{find, put, at};
ghost use Rattle.run_defs.specs.States.{new_book};
ghost use Rattle.run_links.specs.Networks.{new_network, noted_in, offered_in, delivered_in};

use crate::book::Book;
use crate::plans::Plans;
use gnb_types::items::{Items, Memory};
use gnb_types::keys::EntityKey;
use gnb_types::names::UeId;
use gnb_types::outputs::Tag;
use gnb_types::plans::Plan;
use links::bag::Bag;
use links::radios::Radios;
use links::tunnels::Tunnels;
use std::alloc::Global;
use tables::table::Table;

/// The control messages, the tunnels and the radios with what stands on them, the plans of the terminals that were ever attached,
/// those that are gone, and how many packets of each bearer there were. The state of a run is made of this, its units and its core.
#[derive(Drop)]
pub struct Network {
    pub bag: Bag,
    pub tunnels: Tunnels,
    pub radios: Radios,
    pub plans: Plans,
    pub gone: Items<UeId>,
    pub books: Table<EntityKey, Book>,
    pub started: bool,
}

impl Network {
    /// Nothing happened yet.
    pub fn new(alloc: Global) -> Result<Network, Memory>
        ensures { IfOk result (λ made. made ≡ new_network) }
    {
        let bag = Bag::new(alloc)?;
        let tunnels = Tunnels::new(alloc)?;
        let radios = Radios::new(alloc)?;
        Ok(Network {
            bag,
            tunnels,
            radios,
            plans: Plans::new(alloc),
            gone: Items::new(alloc),
            books: Table::new(alloc),
            started: false,
        })
    }

    /// Whether `start` was given.
    pub fn has_started(&self) -> bool
        ensures { result ≡ self.now.started }
    {
        self.started
    }

    /// `start` is given.
    pub fn start(&mut self)
        ensures { self.new ≡ record self.old { started = true } }
    {
        self.started = true;
    }

    /// The plan of a terminal that was ever attached.
    pub fn plan(&self, ue: UeId) -> Option<&Plan>
        ensures plan { option_copied result ≡ find ue_cmp self.now.plans ue }
        ensures own { IfSome result (λ plan. plan.now.ue ≡ ue) }
    {
        self.plans.get(ue)
    }

    /// A terminal is attached by this plan.
    pub fn seat(&mut self, plan: Plan) -> Result<(), Memory>
        ensures { OnOk result (self.new ≡ record self.old { plans = put ue_cmp self.old.plans plan.ue plan }) }
    {
        self.plans.put(plan)
    }

    /// How many packets of a bearer and direction there were.
    #[tactic(auto, unfolding(tables::specs::Tables::at))]
    pub fn book(&self, key: EntityKey) -> Book
        ensures { result ≡ at entity_cmp new_book self.now.books key }
    {
        match self.books.get(&key) {
            Some(book) => *book,
            None => Book::new(),
        }
    }

    fn set_book(&mut self, key: EntityKey, book: Book) -> Result<(), Memory>
        ensures { OnOk result (self.new ≡ record self.old { books = put entity_cmp self.old.books key book }) }
    {
        self.books.put(key, book)?;
        Ok(())
    }

    /// A packet is offered.
    pub fn offer(&mut self, key: EntityKey) -> Result<(), Memory>
        ensures { OnOk result (self.new ≡ record self.old { books = offered_in self.old.books key }) }
    {
        let book = self.book(key).offer()?;
        self.set_book(key, book)
    }

    /// A packet is delivered.
    pub fn deliver(&mut self, key: EntityKey) -> Result<(), Memory>
        ensures { OnOk result (self.new ≡ record self.old { books = delivered_in self.old.books key }) }
    {
        let book = self.book(key).deliver()?;
        self.set_book(key, book)
    }

    /// A COUNT that a unit gives was numbered.
    pub fn note(&mut self, key: EntityKey, tag: Tag) -> Result<(), Memory>
        ensures { OnOk result (self.new ≡ record self.old { books = noted_in self.old.books key tag }) }
    {
        let Tag::Own(count) = tag else {
            return Ok(());
        };
        let book = self.book(key).number(count);
        self.set_book(key, book)
    }
}
