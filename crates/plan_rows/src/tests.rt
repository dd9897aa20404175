// Worked checks of queries.

ghost use Rattle.std.specs.Prelude.{◌≡◌, ◌≤◌};
ghost use Rattle.plan_ast.specs.Checks.{IsCheckedFor, query_of};
ghost use Rattle.plan_ast.specs.Stages.{stages_of};

use col_table::{ListOf, Name, Table, Text};
use plan_ast::{
    Agg, Checked, ColumnAt, Filter, FilterAt, Func, Join, JoinAt, NameRef, NamedTable, Op, Output,
    OutputAt, Places, PlanRefusal, Query, check, stage_total, stages,
};
use std::process::Abort;
use std::test::Fail;

// The names of a query, numbered in the order of their check. From `missing` on they are `?` and
// the number, which names nothing.
#[derive(Drop)]
struct Names<'a, R> {
    rt: &'a R,
    missing: u32,
}

impl<R: Abort + AllocGlobal> Names<'_, R> {
    fn name(&self, number: u32, text: &str) -> Result<Name, Fail> {
        let text = if number < self.missing {
            String::from_str(self.rt.alloc(), text)?
        } else {
            format!(in self.rt.alloc(); "?{number}")?
        };
        Ok(Name::new(text).expect(self.rt, "a name"))
    }

    fn column(&self, number: u32, side: u32, text: &str) -> Result<NameRef, Fail> {
        Ok(NameRef {
            side,
            name: self.name(number, text)?,
        })
    }

    fn filters(&self, number: u32, column: &str) -> Result<ListOf<Filter>, Fail> {
        let filter = Filter {
            column: self.name(number, column)?,
            op: Op::Ge,
            value: 5,
        };
        Ok(ListOf::of(vec![in self.rt.alloc(); filter]?))
    }

    // The join of `table`, whose names have the four numbers from `first`.
    fn join(
        &self,
        first: u32,
        table: &str,
        side: u32,
        left: &str,
        right: &str,
    ) -> Result<Join, Fail>
        requires { first ≤ 100 }
    {
        Ok(Join {
            table: self.name(first, table)?,
            left: self.column(first + 1, side, left)?,
            right: self.name(first + 2, right)?,
            filters: self.filters(first + 3, right)?,
        })
    }

    // The joins of a query, in order.
    fn joins(&self) -> Result<ListOf<Join>, Fail> {
        let first = self.join(2, "u", 0, "k", "k")?;
        let second = self.join(6, "v", 1, "w", "w")?;
        Ok(ListOf::of(vec![in self.rt.alloc(); first, second]?))
    }

    // The groups of a query.
    fn output(&self) -> Result<Output, Fail> {
        let first = self.column(10, 0, "k")?;
        let second = self.column(11, 1, "w")?;
        let sum = Agg {
            func: Func::Sum,
            column: Some(self.column(12, 2, "x")?),
        };
        Ok(Output::Groups {
            by: ListOf::of(vec![in self.rt.alloc(); first, second]?),
            aggs: ListOf::of(vec![in self.rt.alloc(); sum]?),
        })
    }

    // Of `t`, joined with `u` on `k` and with `v` on `w` of `u`: by `k` of `t` and `w` of `u` the
    // sum of `x` of `v`.
    fn query(&self) -> Result<Query, Fail> {
        self.query_of(self.joins()?)
    }

    // The same query with other joins.
    fn query_of(&self, joins: ListOf<Join>) -> Result<Query, Fail> {
        Ok(Query {
            after: 0,
            weight: 10,
            cost: 100,
            scan: self.name(0, "t")?,
            filters: self.filters(1, "v")?,
            joins,
            output: self.output()?,
        })
    }
}

fn name(rt: &(impl Abort + AllocGlobal), text: &str) -> Result<Name, Fail> {
    Ok(Name::new(String::from_str(rt.alloc(), text)?).expect(rt, "a name"))
}

// A table with so many rows.
fn table(
    rt: &(impl Abort + AllocGlobal),
    named: &str,
    columns: [&str; 2],
    rows: u32,
) -> Result<NamedTable, Fail> {
    let names = vec![in rt.alloc(); name(rt, columns[0])?, name(rt, columns[1])?]?;
    let mut table = Table::new(rt.alloc(), names).expect(rt, "a table");
    for _row in 0..rows {
        assert!(rt; table.cols() == 2);
        table.push_row(&[1, 2]).expect(rt, "a row");
    }
    Ok(NamedTable {
        name: name(rt, named)?,
        file: Text::of(String::from_str(rt.alloc(), "a file")?),
        table,
    })
}

fn tables(rt: &(impl Abort + AllocGlobal)) -> Result<Vec<NamedTable>, Fail> {
    let u = table(rt, "u", ["k", "w"], 1)?;
    let t = table(rt, "t", ["k", "v"], 2)?;
    let v = table(rt, "v", ["w", "x"], 3)?;
    Ok(vec![in rt.alloc(); u, t, v]?)
}

// Why `check` refuses the query, if it does.
fn refusal(
    rt: &(impl Abort + AllocGlobal),
    query: &Query,
    tables: &[NamedTable],
) -> Option<PlanRefusal> {
    assert!(rt; query.in_bounds());
    check(rt.alloc(), query, tables).err()
}

// That this is what `check` says of the query.
fn says(
    rt: &(impl Abort + AllocGlobal),
    query: &Query,
    tables: &[NamedTable],
    expected: &str,
) -> Result<(), Fail> {
    let said = match refusal(rt, query, tables) {
        None => String::from_str(rt.alloc(), "accepted")?,
        Some(refusal) => format!(in rt.alloc(); "{refusal}")?,
    };
    assert_eq!(rt; said.as_str(), expected);
    Ok(())
}

// That this is what `check` says of a query whose names from `missing` on name nothing.
fn says_without(
    rt: &(impl Abort + AllocGlobal),
    tables: &[NamedTable],
    missing: u32,
    expected: &str,
) -> Result<(), Fail> {
    says(rt, &Names { rt, missing }.query()?, tables, expected)
}

// That this is what `check` says of a query of these joins.
fn says_of_joins(
    rt: &(impl Abort + AllocGlobal),
    tables: &[NamedTable],
    joins: Vec<Join>,
    expected: &str,
) -> Result<(), Fail> {
    let query = Names { rt, missing: 100 }.query_of(ListOf::of(joins))?;
    says(rt, &query, tables, expected)
}

#[test]
fn refuses_the_first_missing_name(rt: HostRuntime) -> Result<(), Fail> {
    let tables = tables(&rt)?;
    for (missing, expected) in [
        (0, "unknown table ?0"),
        (1, "unknown column ?1"),
        (2, "unknown table ?2"),
        (3, "unknown column ?3"),
        (4, "unknown column ?4"),
        (5, "unknown column ?5"),
        (6, "unknown table ?6"),
        (7, "unknown column ?7"),
        (8, "unknown column ?8"),
        (9, "unknown column ?9"),
        (10, "unknown column ?10"),
        (11, "unknown column ?11"),
        (12, "unknown column ?12"),
        (13, "accepted"),
    ] {
        says_without(&rt, tables.as_slice(), missing, expected)?;
    }
    Ok(())
}

// A join on a column of this side.
fn joins_of(rt: &(impl Abort + AllocGlobal), side: u32) -> Result<Vec<Join>, Fail> {
    let join = Names { rt, missing: 100 }.join(2, "u", side, "k", "k")?;
    Ok(vec![in rt.alloc(); join]?)
}

#[test]
fn knows_no_side_that_does_not_come_before(rt: HostRuntime) -> Result<(), Fail> {
    let tables = tables(&rt)?;
    for side in [1, 2, 3] {
        says_of_joins(
            &rt,
            tables.as_slice(),
            joins_of(&rt, side)?,
            "unknown column k",
        )?;
    }
    says_of_joins(
        &rt,
        tables.as_slice(),
        Vec::new(rt.alloc()),
        "unknown column w",
    )
}

// The query's stages and their tuples, and the table that it scans.
fn has_totals(rt: &impl Abort, checked: &Checked, tables: &[NamedTable])
    requires checked { IsCheckedFor tables.now checked.now }
    requires four { stages_of (query_of checked.now) ≡ 4 }
{
    for (stage, total) in [(0, 1), (1, 3), (2, 2), (3, 16)] {
        assert_eq!(rt; stage_total(checked, tables, stage), total);
    }
    assert_eq!(rt; checked.query().scan.as_str(), "t");
}

// The tables that it names, and its filters.
fn has_tables(rt: &impl Abort, places: &Places) {
    assert_eq!(rt; places.tables.as_slice(), [1, 0, 2].as_slice());
    let filter = FilterAt {
        column: 1,
        op: Op::Ge,
        value: 5,
    };
    assert_eq!(rt; places.filters.as_slice(), [filter].as_slice());
}

// That a join compares this column with the first of its own table.
fn is_join(rt: &impl Abort, join: &JoinAt, side: u32, column: u32) {
    assert_eq!(rt; join.left, ColumnAt { side, column });
    assert_eq!(rt; join.right, 0);
}

// The columns of its two joins.
fn has_joins(rt: &impl Abort, places: &Places) -> Result<(), Fail> {
    let [first, second] = places.joins.as_slice() else {
        return Err("two joins".into());
    };
    is_join(rt, first, 0, 0);
    is_join(rt, second, 1, 1);
    Ok(())
}

// The columns of its groups.
fn has_groups(rt: &impl Abort, places: &Places) -> Result<(), Fail> {
    let OutputAt::Groups { by, .. } = &places.output else {
        return Err("groups".into());
    };
    let columns = [
        ColumnAt { side: 0, column: 0 },
        ColumnAt { side: 1, column: 1 },
    ];
    assert_eq!(rt; by.as_slice(), columns.as_slice());
    Ok(())
}

// What a checked query has: its totals, and the places of its tables, joins and groups.
fn keeps_places(rt: &impl Abort, checked: &Checked, tables: &[NamedTable]) -> Result<(), Fail>
    requires checked { IsCheckedFor tables.now checked.now }
    requires four { stages_of (query_of checked.now) ≡ 4 }
{
    has_totals(rt, checked, tables);
    let places = checked.places();
    has_tables(rt, places);
    has_joins(rt, places)?;
    has_groups(rt, places)
}

// That a query is checked, and has these places.
fn keeps_places_of(
    rt: &(impl Abort + AllocGlobal),
    query: &Query,
    tables: &[NamedTable],
) -> Result<(), Fail> {
    assert!(rt; query.in_bounds());
    assert_eq!(rt; stages(query), 4);
    let checked = check(rt.alloc(), query, tables).expect(rt, "all names are there");
    keeps_places(rt, &checked, tables)
}

#[test]
fn keeps_where_names_stand(rt: HostRuntime) -> Result<(), Fail> {
    let tables = tables(&rt)?;
    let query = Names {
        rt: &rt,
        missing: 100,
    }
    .query()?;
    keeps_places_of(&rt, &query, tables.as_slice())
}

// Whether a query is within its limits if it has this table to come after, weight and cost.
fn is_within(rt: &impl Abort, query: &mut Query, limits: (u32, u32, u32), within: bool) {
    (query.after, query.weight, query.cost) = limits;
    assert_eq!(rt; query.in_bounds(), within);
}

#[test]
fn knows_the_limits(rt: HostRuntime) -> Result<(), Fail> {
    let names = Names {
        rt: &rt,
        missing: 100,
    };
    for (limits, within) in [
        ((0, 1, 1), true),
        ((16_384, 10, 1_000_000), true),
        ((16_385, 10, 100), false),
        ((0, 0, 100), false),
        ((0, 11, 100), false),
        ((0, 10, 0), false),
        ((0, 10, 1_000_001), false),
    ] {
        is_within(&rt, &mut names.query()?, limits, within);
    }
    Ok(())
}
