//! Which names a tree declares, and what is given twice.

ghost use Rattle.std.proofs.Props.{props};
ghost use Rattle.std.specs.Prelude.{◌≡◌, ◌+◌, ◌^◌, ◌<◌, ℕ, List, [], ◌∷◌, ◌++◌, map, cond, Some, None, is_some};
ghost use Rattle.std.specs.Prelude.{option_map, IfOk, OnOk};
ghost use Rattle.std.specs.BTreeMap.{btree_map_len};
ghost use Rattle.std.specs.List.{flat_map, list_any};
ghost use Rattle.std.specs.Option.{option_or};
ghost use Rattle.fcl_syntax.specs.declared.tree.Direction.{Direction};
ghost use Rattle.fcl_syntax.specs.declared.tree.Part.TheVariants as part;
ghost use Rattle.fcl_syntax.specs.declared.tree.Tree.{Tree};
ghost use Rattle.fcl_check.specs.ByLetters.{at_letters, variable_in, count_of, names_in, HoldsSections};
ghost use Rattle.fcl_check.specs.Faults.{Answers, twice, repeated, same_declared, same_kind, same_rule_line};
ghost use Rattle.fcl_check.specs.Faults.{output_line_at, rule_line_at, repeated_lines, repeated_section};
ghost use Rattle.fcl_check.specs.declared.fault.LoadFault.TheVariants as load;
ghost use Rattle.fcl_check.specs.Places.{at_if, at_each, first};
ghost use Rattle.fcl_check.specs.Names.{declared_by, declared_in, is_direction, is_named, letters, number_in};
ghost use Rattle.fcl_check.specs.Names.{section_of, singleton_names, term_names, term_number};

use crate::fault::LoadFault;
use crate::parts::section_name;
use fcl_syntax::{
    Declaration, Defuzzify, DefuzzyLine, Direction, Fuzzify, FuzzyLine, Name, Part, RuleLine, Tree,
    Variables,
};
use std::alloc::{AllocError, Global};
use std::collections::BTreeMap;

/// A declared variable, with its number among the inputs or outputs.
#[derive(Clone, Copy)]
pub struct Variable {
    pub direction: Direction,
    pub number: usize,
}

/// The numbers of the terms of a section, by their names in lower case.
pub type Terms<'a> = BTreeMap<&'a [u8], usize>;

/// A section, with the numbers of its terms.
#[derive(Drop)]
pub struct Section<'a> {
    pub part: &'a Part,
    pub terms: Terms<'a>,
}

/// A tree with its variables and sections, by their names in lower case.
#[derive(Drop)]
pub struct Names<'a> {
    pub tree: &'a Tree,
    pub declared: Vec<(Direction, Name)>,
    pub variables: BTreeMap<&'a [u8], Variable>,
    pub sections: BTreeMap<&'a [u8], Section<'a>>,
    ghost declares: { declared.items ≡ declared_in tree.now.block } by { Prim.hlevel props },
    ghost numbers: { (ls : List ℕ) → at_letters variables ls ≡
        variable_in tree.now.text.items (declared_in tree.now.block) ls } by { Prim.hlevel props },
    ghost holds: { HoldsSections tree.now.text.items tree.now.block.parts sections } by { Prim.hlevel props },
}

impl<'a> Names<'a> {
    /// The names of a tree, or the first thing that is declared or given twice.
    pub fn of(alloc: Global, tree: &'a Tree) -> Result<Names<'a>, LoadFault>
        ensures tree { IfOk result (λ names. names.tree.now ≡ tree.now) }
        ensures fault { Answers result (option_map load.Twice (first (twice tree.now.text.items tree.now.block))) }
    {
        let declared = declared(alloc, tree.block.variables.as_slice())?;
        let variables = variables(alloc, tree, &declared)?;
        let sections = sections(alloc, tree)?;
        rule_lines(tree.block.rules.lines.as_slice())?;
        Ok(Names {
            tree,
            declared,
            variables,
            sections,
        })
    }

    /// A declared variable, by its letters.
    pub fn variable(&self, letters: &[u8]) -> Option<Variable>
        ensures { result ≡
            variable_in self.now.tree.now.text.items (declared_in self.now.tree.now.block) letters.now }
    {
        self.variables.get(letters).copied()
    }

    /// Whether a variable of these letters has a section.
    pub fn has_section(&self, letters: &[u8]) -> bool
        ensures { result ≡
            is_some (section_of self.now.tree.now.text.items self.now.tree.now.block letters.now) }
    {
        self.sections.contains_key(letters)
    }

    /// The section of a variable, by its letters.
    pub fn section(&self, letters: &[u8]) -> Option<&'a Part>
        ensures { option_map (λ p. p.now) result ≡
            section_of self.now.tree.now.text.items self.now.tree.now.block letters.now }
    {
        Some(self.sections.get(letters)?.part)
    }

    /// The number of a term in the section of its variable, if that is a section for this direction.
    pub fn term(&self, direction: Direction, variable: &[u8], term: &[u8]) -> Option<usize>
        ensures { result ≡ term_number self.now.tree.now.text.items self.now.tree.now.block direction variable.now
            term.now }
    {
        let section = self.sections.get(variable)?;
        match (direction, section.part) {
            (Direction::Input, Part::Fuzzify(_)) | (Direction::Output, Part::Defuzzify(_)) => {
                section.terms.get(term).copied()
            }
            _ => None,
        }
    }
}

fn push_declaration(
    into: &mut Vec<(Direction, Name)>,
    direction: Direction,
    declaration: &Declaration,
) -> Result<(), AllocError>
    ensures { OnOk result (into.new.items ≡ into.old.items ++ map
        (λ n. (direction, n)) (declaration.now.first ∷ declaration.now.more)) }
{
    into.push((direction, declaration.first))?;
    for name in declaration.more.as_slice() {
        into.push((direction, *name))?;
    }
    Ok(())
}

fn push_variables(
    into: &mut Vec<(Direction, Name)>,
    variables: &Variables,
) -> Result<(), AllocError>
    ensures { OnOk result (into.new.items ≡ into.old.items ++ declared_by variables.now) }
{
    for declaration in variables.declarations.as_slice() {
        push_declaration(into, variables.direction, declaration)?;
    }
    Ok(())
}

/// The declared names in the text's order.
fn declared(alloc: Global, variables: &[Variables]) -> Result<Vec<(Direction, Name)>, AllocError>
    ensures { IfOk result (λ v. v.items ≡ flat_map declared_by variables.now) }
{
    let mut names = Vec::new(alloc);
    for section in variables {
        push_variables(&mut names, section)?;
    }
    Ok(names)
}

/// Adds a value under the letters of a name, which no other may have yet.
fn add<'a, V: Drop>(
    values: &mut BTreeMap<&'a [u8], V>,
    tree: &'a Tree,
    name: Name,
    value: V,
) -> Result<(), LoadFault>
    ensures fault { Answers result (option_map load.Twice (first (at_if (is_some (at_letters values.old
        (letters tree.now.text.items name))) name.at))) }
    ensures added { OnOk result ((ls : List ℕ) → at_letters values.new ls ≡
        option_or (at_letters values.old ls) (cond (is_named tree.now.text.items ls name) (Some value) None)) }
    ensures len { OnOk result (btree_map_len values.new ≡ btree_map_len values.old + 1) }
{
    if values.insert(tree.letters(name), value)?.is_some() {
        return Err(LoadFault::Twice(name.at));
    }
    Ok(())
}

/// How many inputs and outputs were counted.
#[derive(Clone, Copy)]
struct Counts {
    inputs: usize,
    outputs: usize,
}

impl Counts {
    /// Counts one more variable, and says its number.
    fn next(&mut self, direction: Direction) -> usize
        requires inputs { self.old.inputs < 2 ^ 63 }
        requires outputs { self.old.outputs < 2 ^ 63 }
        ensures number { result ≡ count_of direction self.old + 1 }
        ensures counts { (d : Direction) → count_of d self.new ≡
            cond (is_direction d direction) (count_of d self.old + 1) (count_of d self.old) }
    {
        match direction {
            Direction::Input => {
                self.inputs += 1;
                self.inputs
            }
            Direction::Output => {
                self.outputs += 1;
                self.outputs
            }
        }
    }
}

/// The declared variables by their letters.
fn variables<'a>(
    alloc: Global,
    tree: &'a Tree,
    declared: &[(Direction, Name)],
) -> Result<BTreeMap<&'a [u8], Variable>, LoadFault>
    ensures variables { IfOk result (λ m. (ls : List ℕ) → at_letters m ls ≡
        variable_in tree.now.text.items declared.now ls) }
    ensures fault { Answers result (option_map load.Twice (first (repeated
        (same_declared tree.now.text.items tree.now.block) (λ d. d.1.at) declared.now))) }
{
    let mut variables = BTreeMap::new(alloc);
    let mut counts = Counts {
        inputs: 0,
        outputs: 0,
    };
    for (direction, name) in declared {
        let variable = Variable {
            direction: *direction,
            number: counts.next(*direction),
        };
        add(&mut variables, tree, *name, variable)?;
    }
    Ok(variables)
}

/// Adds a term under the letters of its name, with the next number.
fn add_term<'a>(terms: &mut Terms<'a>, tree: &'a Tree, name: Name) -> Result<(), LoadFault>
    ensures fault { Answers result (option_map load.Twice (first (at_if (is_some (at_letters terms.old
        (letters tree.now.text.items name))) name.at))) }
    ensures added { OnOk result ((ls : List ℕ) → at_letters terms.new ls ≡ option_or (at_letters terms.old ls)
        (cond (is_named tree.now.text.items ls name) (Some (btree_map_len terms.old + 1)) None)) }
    ensures len { OnOk result (btree_map_len terms.new ≡ btree_map_len terms.old + 1) }
{
    let number = terms.len() + 1;
    add(terms, tree, name, number)
}

/// The numbers of the terms of an input's section, whose lines stand once each.
fn fuzzy_terms<'a>(alloc: Global, tree: &'a Tree, section: &Fuzzify) -> Result<Terms<'a>, LoadFault>
    ensures terms { IfOk result (λ m. (ls : List ℕ) → at_letters m ls ≡
        number_in tree.now.text.items (term_names section.now) ls) }
    ensures fault { Answers result (option_map load.Twice (first
        (repeated_lines tree.now.text.items tree.now.block (part.Fuzzify section.now)))) }
{
    let mut terms = BTreeMap::new(alloc);
    let mut has_range = false;
    for line in section.lines.as_slice() {
        match line {
            FuzzyLine::Term(term) => add_term(&mut terms, tree, term.name)?,
            FuzzyLine::Range(range) => {
                if has_range {
                    return Err(LoadFault::Twice(range.at));
                }
                has_range = true;
            }
        }
    }
    Ok(terms)
}

fn line_at(line: &DefuzzyLine) -> u32
    ensures { result ≡ output_line_at line.now }
{
    match line {
        DefuzzyLine::Singleton(singleton) => singleton.name.at,
        DefuzzyLine::Accu(line) | DefuzzyLine::Method(line) => line.at,
        DefuzzyLine::Default(fallback) => fallback.at,
        DefuzzyLine::Range(range) => range.at,
    }
}

fn is_same_kind(line: &DefuzzyLine, other: &DefuzzyLine) -> bool
    ensures { result ≡ same_kind line.now other.now }
{
    matches!(
        (line, other),
        (DefuzzyLine::Accu(_), DefuzzyLine::Accu(_))
            | (DefuzzyLine::Method(_), DefuzzyLine::Method(_))
            | (DefuzzyLine::Default(_), DefuzzyLine::Default(_))
            | (DefuzzyLine::Range(_), DefuzzyLine::Range(_))
    )
}

fn has_kind(lines: &[DefuzzyLine], line: &DefuzzyLine) -> bool
    ensures { result ≡ list_any (same_kind line.now) lines.now }
{
    lines.iter().any(|other| is_same_kind(line, other))
}

/// The numbers of the terms of an output's section, whose lines stand once each.
fn defuzzy_terms<'a>(
    alloc: Global,
    tree: &'a Tree,
    section: &Defuzzify,
) -> Result<Terms<'a>, LoadFault>
    ensures terms { IfOk result (λ m. (ls : List ℕ) → at_letters m ls ≡
        number_in tree.now.text.items (singleton_names section.now) ls) }
    ensures fault { Answers result (option_map load.Twice (first
        (repeated_lines tree.now.text.items tree.now.block (part.Defuzzify section.now)))) }
{
    let mut terms = BTreeMap::new(alloc);
    // The other lines, at most one of each kind.
    let mut others: Vec<DefuzzyLine> = Vec::new(alloc);
    for line in section.lines.as_slice() {
        if let DefuzzyLine::Singleton(singleton) = line {
            add_term(&mut terms, tree, singleton.name)?;
        } else {
            if has_kind(&others, line) {
                return Err(LoadFault::Twice(line_at(line)));
            }
            others.push(*line)?;
        }
    }
    Ok(terms)
}

fn terms<'a>(alloc: Global, tree: &'a Tree, part: &Part) -> Result<Terms<'a>, LoadFault>
    ensures terms { IfOk result (λ m. (ls : List ℕ) → at_letters m ls ≡
        number_in tree.now.text.items (names_in part.now) ls) }
    ensures fault { Answers result (option_map load.Twice (first
        (repeated_lines tree.now.text.items tree.now.block part.now))) }
{
    match part {
        Part::Fuzzify(section) => fuzzy_terms(alloc, tree, section),
        Part::Defuzzify(section) => defuzzy_terms(alloc, tree, section),
    }
}

/// The sections by the letters of their names.
fn sections(alloc: Global, tree: &Tree) -> Result<BTreeMap<&[u8], Section<'_>>, LoadFault>
    ensures sections { IfOk result (HoldsSections tree.now.text.items tree.now.block.parts) }
    ensures fault { Answers result (option_map load.Twice (first (at_each
        (repeated_section tree.now.text.items tree.now.block) [] tree.now.block.parts))) }
{
    let mut sections = BTreeMap::new(alloc);
    for part in tree.block.parts.as_slice() {
        let name = section_name(part);
        if sections.contains_key(tree.letters(name)) {
            return Err(LoadFault::Twice(name.at));
        }
        let terms = terms(alloc, tree, part)?;
        add(&mut sections, tree, name, Section { part, terms })?;
    }
    Ok(sections)
}

fn is_same_rule_line(line: &RuleLine, other: &RuleLine) -> bool
    ensures { result ≡ same_rule_line line.now other.now }
{
    matches!(
        (line, other),
        (RuleLine::And(_), RuleLine::And(_))
            | (RuleLine::Or(_), RuleLine::Or(_))
            | (RuleLine::Act(_), RuleLine::Act(_))
            | (RuleLine::Accu(_), RuleLine::Accu(_))
    )
}

fn has_rule_line(lines: &[RuleLine], line: &RuleLine) -> bool
    ensures { result ≡ list_any (same_rule_line line.now) lines.now }
{
    lines.iter().any(|other| is_same_rule_line(line, other))
}

fn rule_line_at(line: &RuleLine) -> u32
    ensures { result ≡ rule_line_at line.now }
{
    match line {
        RuleLine::And(line) | RuleLine::Or(line) | RuleLine::Accu(line) => line.at,
        RuleLine::Act(line) => line.at,
    }
}

/// No line is given twice. Lines are compared with at most four before them, one of each kind.
fn rule_lines(lines: &[RuleLine]) -> Result<(), LoadFault>
    ensures { Answers result (option_map load.Twice (first (repeated same_rule_line rule_line_at lines.now))) }
{
    for (index, line) in lines.iter().enumerate() {
        if has_rule_line(&lines[..index], line) {
            return Err(LoadFault::Twice(rule_line_at(line)));
        }
    }
    Ok(())
}
