//! The page's script: the code as a picture.

/// The layout of a block, and its picture.
pub(crate) const PICTURE: &[u8] =
    br##"// ---- layout: layers by longest path, dummies, barycentre order, places by isotonic regression
const LH = 68, NH = 36, GAP = 16;
const isLeft = c => $('brief').checked && c.quiet && c.k > BLOCKS[c.b].ins;  // left out of the picture
function leads(c) {  // where its tokens go, through what is left out
  const list = [], met = new Set();
  const add = (d, k) => {
    if (!d || !CODE[d.ip] || met.has(d.ip + d.port)) return;
    met.add(d.ip + d.port);
    if (isLeft(CODE[d.ip])) CODE[d.ip].d.forEach(x => add(x, k)); else list.push({ip: d.ip, port: d.port, k: k});
  };
  c.d.forEach(add);
  return list;
}
const reach = (ip, port) => CODE[ip] && isLeft(CODE[ip]) ? leads(CODE[ip]) : [{ip: ip, port: port}];
function layout(b) {
  const code = b.view, n = code.length, index = new Map(code.map((c, i) => [c.ip, i]));
  const L = new Array(n).fill(0), fed = new Array(n).fill(false), edges = [];
  for (let i = 0; i < n; i++) {
    if (!fed[i] && i > b.ins) L[i] = Math.max(L[i - 1], 1);  // a landing place stands beside the one before it
    for (const d of leads(code[i])) { const j = index.get(d.ip); if (j > i) { fed[j] = true; L[j] = Math.max(L[j], L[i] + 1);
        edges.push({a: i, z: j, k: d.k, port: d.port}); } }
  }
  const ins = new Array(n).fill(0), outs = new Array(n).fill(0), low = new Array(n).fill(LATER);
  for (const e of edges) { ins[e.z]++; outs[e.a]++; }
  for (let i = n - 1; i > b.ins; i--) { for (const e of edges) if (e.a === i) low[i] = Math.min(low[i], L[e.z]);
      if (outs[i] > ins[i] && fed[i] && low[i] !== LATER) L[i] = low[i] - 1; }
  const depth = Math.max.apply(null, L) + 1, rows = Array.from({length: depth}, () => []), V = [];
  for (let i = 0; i < n; i++) {
    const c = code[i], w = Math.max(52, 20 + 7.25 * ((c.k + ' ' + c.name + (c.op ? ' ' + c.op : '')).length));
    V.push({i: i, row: L[i], w: w, up: [], down: []}); rows[L[i]].push(V[i]);
  }
  for (const e of edges) {
    e.path = [V[e.a]];
    for (let r = L[e.a] + 1; r < L[e.z]; r++) { const d = {row: r, w: 10, up: [], down: [], dummy: true}; V.push(d); rows[r].push(d); e.path.push(d); }
    e.path.push(V[e.z]);
    for (let k = 1; k < e.path.length; k++) {
      const off = k === e.path.length - 1 && code[e.z].two ? (e.port === 'l' ? -1 : 1) * V[e.z].w / 4 : 0;
      e.path[k].up.push([e.path[k - 1], -off]); e.path[k - 1].down.push([e.path[k], off]);
    }
  }
  const beside = v => v.i > 0 && V[v.i - 1].row === v.row ? V[v.i - 1] : null;  // where nothing leads, next to the instruction before it
  const number = row => row.forEach((v, k) => { v.p = k; });
  rows.forEach(number);
  const crossings = () => {
    let c = 0;
    for (const row of rows) {
      const es = [];
      for (const v of row) for (const [d, off] of v.down) es.push([v.p, d.p + off / 1000]);
      for (let x = 0; x < es.length; x++) for (let y = x + 1; y < es.length; y++) if ((es[x][0] - es[y][0]) * (es[x][1] - es[y][1]) < 0) c++;
    }
    return c;
  };
  let best = crossings(), keep = rows.map(r => r.slice());
  for (let pass = 0; pass < 12 && best > 0; pass++) {
    const down = pass % 2 === 0;
    for (let q = 0; q < depth; q++) {
      const row = rows[down ? q : depth - 1 - q];
      for (const v of row) { const ns = down ? v.up : v.down; v.key = ns.length ? ns.reduce((a, x) => a + x[0].p + x[1] / 1000, 0) / ns.length :
          beside(v) ? beside(v).p + 0.1 : v.p; }
      row.sort((x, y) => x.key - y.key || x.p - y.p); number(row);
    }
    const c = crossings();
    if (c < best) { best = c; keep = rows.map(r => r.slice()); }
  }
  keep.forEach((r, k) => { rows[k] = r; number(r); });
  for (const row of rows) { let x = 0; for (const v of row) { v.x = x + v.w / 2; x += v.w + GAP; } }
  for (let pass = 0; pass < 40; pass++) {
    for (let q = 0; q < depth; q++) {
      const row = rows[pass % 2 ? depth - 1 - q : q], pools = [];
      let off = 0;
      row.forEach((v, k) => {  // places as near as can be to the neighbours' mean, in order, without overlap
        if (k) off += (row[k - 1].w + v.w) / 2 + GAP;
        const ns = pass > 23 ? v.up.concat(v.down) : pass % 2 ? v.down : v.up, all = ns.length ? ns : v.up.concat(v.down);
        const pull = u => v.dummy && u.dummy ? 8 : v.dummy || u.dummy ? 2 : 1, wt = all.reduce((a, x) => a + pull(x[0]), 0) || 1, want = all.length ?
            all.reduce((a, x) => a + (x[0].x + x[1]) * pull(x[0]), 0) / wt : beside(v) ? beside(v).x : v.x;
        v.off = off;
        pools.push({s: (want - off) * wt, w: wt, vs: [v]});
        while (pools.length > 1) {
          const z = pools[pools.length - 1], y = pools[pools.length - 2];
          if (y.s / y.w <= z.s / z.w) break;
          y.s += z.s; y.w += z.w; y.vs = y.vs.concat(z.vs); pools.pop();
        }
      });
      for (const p of pools) for (const v of p.vs) v.x = p.s / p.w + v.off;
    }
  }
  const room = v => { const a = rows[v.row][v.p - 1], z = rows[v.row][v.p + 1];
      return [a ? a.x + (a.w + v.w) / 2 + 4 : -Infinity, z ? z.x - (z.w + v.w) / 2 - 4 : Infinity]; };
  for (const e of edges) for (let k = 1; k < e.path.length - 1;) {  // straighten the bends of long edges, as far as there is room
    let lo = -Infinity, hi = Infinity, j = k, sum = 0;
    while (j < e.path.length - 1) { const [a, z] = room(e.path[j]); if (Math.max(lo, a) > Math.min(hi, z)) break; lo = Math.max(lo, a);
        hi = Math.min(hi, z); sum += e.path[j++].x; }
    if (j === k) { k++; continue; }
    const x = Math.min(hi, Math.max(lo, sum / (j - k)));
    while (k < j) e.path[k++].x = x;
  }
  let min = Infinity, max = -Infinity;
  for (const v of V) { min = Math.min(min, v.x - v.w / 2); max = Math.max(max, v.x + v.w / 2); }
  for (const v of V) v.x += 26 - min;
  return {V: V, edges: edges, w: max - min + 62, h: depth * LH + 46, pos: i => ({x: V[i].x, y: 52 + V[i].row * LH, w: V[i].w})};
}

// ---- the picture
const BIG = 200;
let shown = [], place = new Map(), edgeOf = new Map(), layer = null, svg = null, size = {w: 0, h: 0}, drawn = '', rowOf = new Map();
const farOf = new Map();
function draw(list) {
  const key = list.map(b => b.n).join() + $('brief').checked;
  for (const b of list) { b.view = b.code.filter(c => !isLeft(c)); b.lay = b.lays[$('brief').checked]; }
  if (key === drawn) return;
  drawn = key; shown = list; place = new Map(); edgeOf = new Map(); farOf.clear(); rowOf = new Map(); told.clear();
  const small = list.filter(b => b.view.length <= BIG), big = list.filter(b => b.view.length > BIG), g = [];
  let x = 10, y = 10, rowh = 0, W = 0;
  const room = Math.max(900, ...small.map(b => (b.lay = b.lays[$('brief').checked] = b.lay || layout(b)).w + 20));
  for (const b of small) {
    const l = b.lay;
    if (x > 10 && x + l.w > room * 1.6) { x = 10; y += rowh + 14; rowh = 0; }
    b.x = x; b.y = y; x += l.w + 14; rowh = Math.max(rowh, l.h); W = Math.max(W, x);
    b.view.forEach((c, i) => { const p = l.pos(i); place.set(c.ip, {x: b.x + p.x, y: b.y + p.y, w: p.w}); });
  }
  size = {w: Math.max(W, 60), h: y + rowh + 10};
  for (const b of small) {
    const l = b.lay;
    g.push(sv('rect', {class: 'bbox', x: b.x, y: b.y, width: l.w, height: l.h, rx: 10}),
        sv('text', {class: 'btitle', x: b.x + 12, y: b.y + 19}, bname(b)));
    const fars = [];
    for (const e of l.edges) {
      const src = b.view[e.a], dst = b.view[e.z], twin = l.edges.find(z => z.a === e.a && z !== e);
      const A = place.get(src.ip), Z = place.get(dst.ip), pts = [];
      let out = 0;
      if (twin) { const mine = e.path[1].x, o = twin.path[1].x, isLeftOne = mine < o || (mine === o && (twin.z === e.z ? e.port === 'l' : e.k === 0));
          out = (isLeftOne ? -1 : 1) * Math.min(14, A.w / 5); }
      pts.push([A.x + out, A.y + NH]);
      for (const v of e.path.slice(1, -1)) pts.push([b.x + v.x, b.y + 52 + v.row * LH], [b.x + v.x, b.y + 52 + v.row * LH + NH]);
      const end = [Z.x + (dst.two ? (e.port === 'l' ? -1 : 1) * Z.w / 4 : 0), Z.y];
      pts.push(end);
      let p = 'M' + pts[0].map(Math.round);
      for (let k = 1; k < pts.length; k++) { const [x0, y0] = pts[k - 1], [x1, y1] = pts[k], h = (y1 - y0) / 2; p += Math.abs(x0 - x1) < 1 ?
          'L' + [x1, y1].map(Math.round) : 'C' + [x0, y0 + h, x1, y1 - h, x1, y1].map(Math.round); }
      const path = sv('path', {class: 'edge' + (e.k === 0 && /^(fetch|store|frame|ask|link)$/.test(src.name) ? ' ans' : ''), d: p,
          'marker-end': 'url(#arrow)'});
      g.push(path);
      if (dst.two) g.push(sv('text', {class: 'pl', x: end[0] + (e.port === 'l' ? -9 : 5), y: end[1] - 4}, e.port));
      if (src.name === 'switch') g.push(sv('text', {class: 'pl', x: pts[0][0] + (out < 0 ? -9 : 4), y: pts[0][1] + 11}, e.k ? 'F' : 'T'));
      edgeOf.set(src.ip + '>' + dst.ip + e.port, {path: path, end: end, from: pts[pts.length - 2]});
    }
    for (const c of b.view) {
      const m = /^b(\d+)(?:\.(\d+))?$/.exec(c.op);
      if (m && BLOCKS[+m[1]]) fars.push([c, BLOCKS[+m[1]].first + (m[2] ? +m[2] : 0)]);
    }
    b.fars = fars;
  }
  small.forEach(b => b.fars.forEach(([c, to], k) => {
    const A = place.get(c.ip), Z = place.get(to);
    if (!Z) return;
    let p;
    if (CODE[to].b === b.n) { const r = b.x + b.lay.w - 6 - (k % 4) * 5, top = b.y + 30 - (k % 4) * 3;
        p = `M${A.x + A.w / 2},${A.y + NH / 2}C${r},${A.y + NH / 2} ${r},${A.y} ${r},${A.y - 40}` +
          `L${r},${top + 20}Q${r},${top} ${r - 20},${top}L${Z.x + 12},${top}Q${Z.x},${top} ${Z.x},${Z.y}`; }
    else { const s = Z.x > A.x ? 1 : -1;
        p = `M${A.x + s * A.w / 2},${A.y + NH / 2}C${A.x + s * (A.w / 2 + 90)},${A.y + NH / 2} ${Z.x},${Z.y - 110} ${Z.x},${Z.y}`; }
    const path = sv('path', {class: 'far', d: p, 'marker-end': 'url(#arrowf)'});
    farOf.set(c.ip, path); g.push(path);
  }));
  for (const c of CODE) c.g = null;
  for (const b of small) for (const c of b.view) {
    const p = place.get(c.ip), label = at(c.ip) + ' ' + c.name + ' ' + c.op;
    c.g = sv('g', {class: 'node' + (c.k <= b.ins ? ' entry' : ''), tabindex: 0, role: 'button',
        'aria-label': 'Instruction ' + label + (c.slot === null ? '' : ', slot ' + c.slot), transform: `translate(${p.x - p.w / 2},${p.y})`,
        on: () => choose({ip: c.ip, of: ofInstruction(c.ip)})},
      sv('title', {}, label + (HELP[c.name] ? ': ' + HELP[c.name] : '')), sv('rect', {width: p.w, height: NH, rx: c.k <= b.ins ? 16 : 6}),
      sv('text', {x: p.w / 2, y: c.slot === null ? 22 : 17, 'text-anchor': 'middle'}, sv('tspan', {class: 'num'}, c.k + ' '),
          sv('tspan', {class: 'nm'}, c.name), c.op ? sv('tspan', {class: 'num'}, ' ' + c.op) : ''),
      c.slot === null ? '' : sv('text', {class: 'sl', x: p.w / 2, y: 30, 'text-anchor': 'middle'}, 'slot ' + c.slot));
    g.push(c.g);
  }
  layer = sv('g', {});
  const arrow = (id, color) => sv('marker', {id: id, viewBox: '0 0 8 8', refX: 7, refY: 4, markerWidth: 8, markerHeight: 8,
      markerUnits: 'userSpaceOnUse', orient: 'auto-start-reverse'}, sv('path', {d: 'M0,0.8L8,4L0,7.2z', fill: color}));
  svg = small.length ? sv('svg', {viewBox: `0 0 ${size.w} ${size.h}`, role: 'group', 'aria-label': 'Code of ' + small.map(bname).join(', ')},
      sv('defs', {}, arrow('arrow', 'var(--faint)'), arrow('arrowf', 'var(--manager)'), arrow('arrowm', 'var(--memory)')), g, layer) : null;
  const tables = big.map(b => {
    const body = el('tbody', {});
    for (const c of b.view) { const r = el('tr', {on: () => choose({ip: c.ip, of: ofInstruction(c.ip)})}, el('td', {}, String(c.k)),
        el('td', {}, el('b', {}, c.name)),
        el('td', {}, c.slot === null ? '-' : String(c.slot)), c.d.map(d => el('td', {}, d ? '+' + (d.ip - c.ip) + d.port : '-')),
        el('td', {}, c.op || '-'), el('td', {})); body.append(r); rowOf.set(c.ip, r); }
    return el('div', {class: 'tbl mono'}, el('b', {}, bname(b)), el('table', {},
        el('thead', {}, el('tr', {}, ['no.', 'name', 'slot', 'to', 'to', 'operand', 'tokens'].map(h => el('th', {}, h)))), body));
  });
  fill($('graph'), svg, tables);
  scale();
}
function scale() {
  if (!svg) return;
  const box = $('graph'), z = $('zsel').value, w = box.clientWidth || 700, h = Math.max(416, innerHeight - 336);
  let k = z === 'fit' ? Math.min(1.15, w / size.w, Math.max(h / size.h, 0.72)) : +z;
  if (z === 'fit') k = Math.max(k, 0.5);
  svg.setAttribute('width', Math.round(size.w * k)); svg.setAttribute('height', Math.round(size.h * k));
}
function blocksFor(n, f, s) {
  const v = $('bsel').value;
  if (v === 'all') return BLOCKS;
  if (v === 'run') return BLOCKS.filter(b => b.used);
  if (v !== 'follow') return [BLOCKS[+v]];
  const i = CODE[n < 0 ? START ? IP[0] : -1 : ipOf(n)], b = s.out.has(f) && blockOf(s.out.get(f), n);
  return i ? [BLOCKS[i.b]] : b ? [b] : shown.length ? shown : [BLOCKS[MAIN]];
}
let hot = [], told = new Map();  // what is marked; the rows of tables with their tokens
function chip(x, y, w, cls, title, t, aside) {  // aside: how far from the middle; never across it
  const s = brief(w, 13), wd = Math.max(20, 10 + 6.8 * s.length);
  if (aside) x += Math.sign(aside) * Math.max(Math.abs(aside), wd / 2 + 1);
  return sv('g', {class: 'tok ' + cls + (picked && picked.t === t ? ' sel' : ''), tabindex: 0, role: 'button', 'aria-label': title,
      transform: `translate(${x},${y})`, on: ev => { ev.stopPropagation(); choose({t: t}); }},
    sv('title', {}, title), sv('rect', {x: -wd / 2, y: -9, width: wd, height: 18, rx: 9}), sv('text', {y: 4}, s));
}
function marks(n, s, pool, f) {
  for (const h of hot) h[0].classList.remove(h[1]);
  hot = [];
  const on = (e, c) => { if (e) { e.classList.add(c); hot.push([e, c]); } };
  const ev = n < 0 ? null : eventOf(n), src = ipOf(n), all = $('fsel').value === 'all';
  if (src >= 0) { on(CODE[src] && CODE[src].g, 'act'); on(rowOf.get(src), 'act'); if (farOf.get(src) && ev.made.length) on(farOf.get(src), 'on'); }
  if (picked && picked.ip !== undefined) on(CODE[picked.ip] && CODE[picked.ip].g, 'sel');
  for (const r of told.keys()) r.lastChild.textContent = '';
  told.clear();
  if (layer) layer.replaceChildren();
  const kids = [], stack = new Map(), others = new Map();
  const spot = (k, x, y) => { const c = stack.get(k) || 0; stack.set(k, c + 1); return c > 5 ? null : [x + c * 7, y - c * 13]; };
  const side = (ip, port) => CODE[ip].two ? (port === 'l' ? -1 : 1) * place.get(ip).w / 4 : 0;
  const rest = ip => others.set(ip, (others.get(ip) || 0) + 1);
  if (ev) for (const m of ev.made) if (m[0] === 'i' && src >= 0) for (const d of reach(m[2], m[3])) {
    const e = m[1] === TO[TAKES[n]] && edgeOf.get(src + '>' + d.ip + d.port), A = place.get(src), Z = place.get(d.ip);
    if (e) on(e.path, 'hot');
    else if (A && Z && !farOf.get(src)) { const up = Z.y < A.y, h = up ? -30 : 40, zx = Z.x + side(d.ip, d.port);
        kids.push(sv('path', {class: 'made',
        d: `M${A.x + A.w / 2},${A.y + NH / 2}C${A.x + A.w / 2 + 70},${A.y + NH / 2 + h} ${zx + (up ? 60 : 0)},${Z.y - 60} ${zx},${Z.y}`,
        'marker-end': 'url(#arrowm)'})); }
  }
  const tell = (ip, text) => { const r = rowOf.get(ip); if (r) told.set(r, (told.get(r) || '') + ' ' + text); };
  const crowd = new Map();
  for (const t of pool) {
    const ip = IP[t], many = crowd.get(ip) || 0;
    if (ip < 0) continue;
    if ((!all && TO[t] !== f) || many > 15) { rest(ip); continue; }
    crowd.set(ip, many + 1);
    const T = tokenOf(t), d = reach(ip, T[3])[0], Z = d && place.get(d.ip), from = MADE[t];
    tell(ip, brief(T[4], 14) + ' ' + T[3]);
    if (!Z) continue;
    const e = from >= 0 && ipOf(from) >= 0 && TO[TAKES[from]] === T[1] && edgeOf.get(ipOf(from) + '>' + d.ip + d.port);
    const p = spot(d.ip + d.port, e ? e.end[0] + (e.from[0] - e.end[0]) * 0.22 : Z.x + side(d.ip, d.port), Z.y - 17);
    if (p) kids.push(chip(p[0], p[1], T[4], from === n ? 'new' : '', 'Token: ' + goes(T, -1), t));
  }
  const waits = [];
  s.slots.forEach((c, k) => { const ip = c < K ? -1 : ipOf(c - K), many = crowd.get(-ip) || 0; if (ip < 0) return;
      if ((!all && Math.floor(k / 512) !== f) || many > 15) rest(ip); else { waits.push(k); crowd.set(-ip, many + 1); } });
  for (const k of waits.sort((a, b) => a - b)) {
    const c = s.slots.get(k), ip = ipOf(c - K), Z = place.get(ip), T = takenBy(c - K), q = stateOf(c), word = q[0] === 'l' || q[0] === 'r';
    const w = word ? q[1] : q[0] === 'c' ? many(q[1], 'credit') : q[0] === 'w' ? 'asks ' + short(q[1]) : 'drain ' + q[1];
    tell(ip, '[' + brief(w, 14) + ' ' + T[3] + ']');
    const p = Z && spot('w' + ip + T[3], Z.x, word ? Z.y - 3 : Z.y + NH + 8);
    if (p) kids.push(chip(p[0], p[1], w, 'wait', 'Frame ' + Math.floor(k / 512) + ', slot ' + (k % 512) + ': ' + stands(q), TAKES[c - K],
        word ? (q[0] === 'l' ? -1 : 1) * Z.w / 4 : 0));
  }
  told.forEach((text, r) => { r.lastChild.textContent = text; });
  others.forEach((c, ip) => { const Z = place.get(ip);
      if (Z) kids.push(sv('text', {class: 'others', x: Z.x + Z.w / 2 - 4, y: Z.y + NH + 10, 'text-anchor': 'middle'}, '+' + c)); });
  if (layer) layer.append(...kids);
  let focus = src;
  if (focus < 0 && ev) for (const m of ev.made) if (m[0] === 'i') for (const d of reach(m[2], m[3])) focus = d.ip;
  return focus < 0 ? src : focus;
}
function reveal(focus, src) {  // asks for the page's layout, so comes last
  const P = place.get(focus), g = $('graph'), R = rowOf.get(src), fb = $('frames'), mine = fb.querySelector('.cur');
  const to = revealLine(pos);
  if (P && svg) {
    const k = svg.clientWidth / size.w || 1, x = P.x * k, y = P.y * k;
    if (y < g.scrollTop + 50 || y > g.scrollTop + g.clientHeight - 90) to.push([g, 'scrollTop', y - g.clientHeight / 2]);
    if (x < g.scrollLeft + 60 || x > g.scrollLeft + g.clientWidth - 60) to.push([g, 'scrollLeft', x - g.clientWidth / 2]);
  }
  if (R) { const box = R.closest('.tbl'); to.push([box, 'scrollTop', R.offsetTop - box.clientHeight / 2]); }
  if (mine && (mine.offsetTop < fb.scrollTop || mine.offsetTop + mine.offsetHeight > fb.scrollTop + fb.clientHeight)) to.push([fb, 'scrollTop',
      mine.offsetTop - 6]);
  for (const [e, k, v] of to) e[k] = v;
}

"##;
